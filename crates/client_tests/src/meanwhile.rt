//! A gate at which another client acts once, and a client that passes it.

use crate::asks::{Answer, Ask, ask_all, asked, library};
use bucket_core::{Bucket, Gate, GatePoint, Gated};
use bucket_shared::{Pass, Shared};
use library_api::Library;
use std::alloc::Global;
use std::sync::{Mutex, Wait};
use std::test::Fail;

/// What two clients do. Client 1 carries out `before`. Client 2, in one try or two, is asked `ask`, and in the meantime client 1, which
/// tries twice, carries out `meanwhile`. At last client 2 is asked `after`. Tiles have so many rows.
#[derive(Clone, Copy)]
pub(crate) struct Case {
    pub(crate) rows: u32,
    pub(crate) before: &'static [Ask],
    pub(crate) meanwhile: &'static [Ask],
    pub(crate) twice: bool,
    pub(crate) ask: Ask,
    pub(crate) after: Ask,
}

/// What client 2 is answered, how many events it has seen then, what it is answered at last, and whether client 1 acted meanwhile.
#[derive(Clone, Copy)]
pub(crate) struct Met {
    pub(crate) answer: Answer,
    pub(crate) seen: u64,
    pub(crate) after: Answer,
    pub(crate) acted: bool,
}

// How often the gate is still to be passed until client 1 acts, which it does at the last of them, and what it does.
#[derive(Drop)]
struct Due {
    passes: u64,
    alloc: Global,
    first: Library<Pass>,
    asks: &'static [Ask],
}

// A gate at which client 1 acts once, at one point or wherever it is passed, while the client that passes it waits.
#[derive(Drop)]
struct Meanwhile {
    at: Option<GatePoint>,
    due: Mutex<Due>,
}

impl Meanwhile {
    // Whether client 1 has acted.
    fn acted<R: Wait>(&self, rt: &R) -> bool {
        self.due.lock(rt).passes == 0
    }
}

impl Gate for Meanwhile {
    fn pass_by<R: Wait>(&self, rt: &R, at: GatePoint) {
        if self.at.is_some_and(|point| point != at) {
            return;
        }
        let mut due = self.due.lock(rt);
        if due.passes == 1 {
            let (alloc, asks) = (due.alloc, due.asks);
            let _ = ask_all(rt, alloc, &mut due.first, asks);
        }
        due.passes = due.passes.saturating_sub(1);
    }
}

// Client 1, which has carried out these commands, and client 2.
fn clients<R: Wait>(rt: &R, alloc: Global, case: &Case) -> Result<(Library<Pass>, Pass), Fail> {
    let mut pass = Shared::make(alloc, 1_000, 1)?;
    let second = pass.split(rt)?;
    let mut first = library(pass, case.rows, true);
    ask_all(rt, alloc, &mut first, case.before)?;
    Ok((first, second))
}

// What client 2 is answered at the gate, and how many events it has seen then, and what it is answered at last.
fn answers<R: Wait>(
    rt: &R,
    alloc: Global,
    second: Pass,
    gate: &Meanwhile,
    case: &Case,
) -> Result<(Answer, u64, Answer), Fail> {
    let mut second = library(Gated::make(second, gate), case.rows, case.twice);
    let answer = asked(rt, alloc, &mut second, case.ask)?;
    let bucket = second.into_bucket();
    let seen = bucket.place();
    let mut second = library(bucket.into_inner(), case.rows, case.twice);
    Ok((answer, seen, asked(rt, alloc, &mut second, case.after)?))
}

/// What comes of it where client 1 acts when client 2 passes this point, or any, for this time, counted from 1.
pub(crate) fn meet<R: Wait>(
    rt: &R,
    alloc: Global,
    case: &Case,
    at: Option<GatePoint>,
    time: u64,
) -> Result<Met, Fail> {
    let (first, second) = clients(rt, alloc, case)?;
    let gate = Meanwhile {
        at,
        due: Mutex::new(Due {
            passes: time,
            alloc,
            first,
            asks: case.meanwhile,
        }),
    };
    let (answer, seen, after) = answers(rt, alloc, second, &gate, case)?;
    Ok(Met {
        answer,
        seen,
        after,
        acted: gate.acted(rt),
    })
}
