ghost use Rattle.std.specs.Prelude.{IfOk};
ghost use Rattle.std.specs.List.{AllByRecursion};
ghost use Rattle.client_sessions.specs.Sessions.{IsReady, AreNamed};

use base_types::Items;
use bucket_core::{Bucket, OpenGate};
use bucket_shared::{Pass, Shared};
use client_sessions::{PartReplies, run_parts};
use expr_clause::{AsOf, Command};
use frame_core::{ColName, Column, Range, RawFrame};
use key_kind::Symbol;
use library_api::Settings;
use reply_model::{Outcome, Reply};
use segment_cut::Cutting;
use std::alloc::Global;
use std::sync::Wait;
use std::test::Fail;
use std::thread::Threads;

// Two rows of one column.
fn two_rows(alloc: Global) -> Result<RawFrame, Fail> {
    let mut raw = RawFrame {
        stamps: Items::from_slice(alloc, &[1, 2])?,
        names: Items::new(alloc),
        columns: Items::new(alloc),
    };
    raw.names.push(ColName::make(alloc, "price")?)?;
    raw.columns
        .push(Column::Ints(Items::from_slice(alloc, &[100, 101])?))?;
    Ok(raw)
}

// A write of the two rows to a symbol.
fn write(alloc: Global, name: &str) -> Result<Command, Fail>
    ensures { IfOk result (IsReady 1) }
{
    Ok(Command::Write {
        symbol: Symbol::make(alloc, name)?,
        frame: 0,
        at: None,
        prune: false,
    })
}

// A read of the symbol's newest version.
fn read(alloc: Global, name: &str) -> Result<Command, Fail>
    ensures { IfOk result (IsReady 1) }
{
    Ok(Command::Read {
        symbol: Symbol::make(alloc, name)?,
        as_of: AsOf::Back(1),
        range: Range::make(None, None).unwrap(),
        columns: None,
        clauses: Items::new(alloc),
    })
}

// The command alone.
fn one(alloc: Global, command: Command) -> Result<Items<Command>, Fail>
    requires { IsReady 1 command }
    ensures { IfOk result (AreNamed 1) }
{
    let mut commands = Items::new(alloc);
    commands.push(command)?;
    Ok(commands)
}

// What the parts answer over a new store, with the two rows as their frame.
fn run<R: Threads + Wait + Sync>(
    rt: &R,
    alloc: Global,
    first: &[Command],
    blocks: &[Items<Command>],
    last: &[Command],
) -> Result<(Pass, PartReplies), Fail>
    requires first { AreNamed 1 first.now }
    requires blocks { AllByRecursion (AreNamed 1) blocks.now }
    requires last { AreNamed 1 last.now }
{
    let settings = Settings {
        cutting: Cutting::largest(),
        tries: 1,
        workers: 1,
        moment: 70,
    };
    let mut frames = Items::new(alloc);
    frames.push(two_rows(alloc)?)?;
    let pass = Shared::make(alloc, 1000, 1)?;
    let (pass, replies) = run_parts(
        rt,
        alloc,
        pass,
        &OpenGate,
        settings,
        frames.items(),
        first,
        blocks,
        last,
    );
    Ok((pass, replies?))
}

// The place of a first version.
fn written(reply: &Reply) -> Option<u64> {
    match reply.outcome {
        Outcome::Committed { version: 0 } => Some(reply.place),
        _ => None,
    }
}

// The place at which a first version was read.
fn found(reply: &Reply) -> Option<u64> {
    match reply.outcome {
        Outcome::Whole { version: 0, .. } => Some(reply.place),
        _ => None,
    }
}

/// Where the replies stand, each for a first version, and how long the history is.
#[derive(Clone, Copy)]
struct Places {
    first: Option<u64>,
    a: Option<u64>,
    b: Option<u64>,
    last: Option<u64>,
    end: u64,
}

// The one reply of a list.
fn only(replies: &Items<Reply>) -> Option<&Reply> {
    match replies.items() {
        [reply] => Some(reply),
        _ => None,
    }
}

fn places_of(pass: &Pass, replies: &PartReplies) -> Option<Places> {
    let [a, b] = replies.blocks.items() else {
        return None;
    };
    Some(Places {
        first: only(&replies.first).and_then(written),
        a: only(a).and_then(written),
        b: only(b).and_then(written),
        last: only(&replies.last).and_then(found),
        end: pass.place(),
    })
}

// The blocks of two clients, which write a symbol each.
fn two_blocks(alloc: Global) -> Result<Items<Items<Command>>, Fail>
    ensures { IfOk result (λ blocks. AllByRecursion (AreNamed 1) blocks) }
{
    let mut blocks = Items::new(alloc);
    blocks.push(one(alloc, write(alloc, "A")?)?)?;
    blocks.push(one(alloc, write(alloc, "B")?)?)?;
    Ok(blocks)
}

// Two clients write a symbol each, between a write and a read of the first client.
fn three_writes<R: Threads + Wait + Sync>(rt: &R, alloc: Global) -> Result<Option<Places>, Fail> {
    let first = one(alloc, write(alloc, "S")?)?;
    let blocks = two_blocks(alloc)?;
    let last = one(alloc, read(alloc, "B")?)?;
    let (pass, replies) = run(rt, alloc, first.items(), blocks.items(), last.items())?;
    Ok(places_of(&pass, &replies))
}

fn is_found_behind_the_joins(places: Places) -> bool {
    places.end == 12 && places.first == Some(4) && places.last == Some(12)
}

fn are_written_once(places: Places) -> bool {
    let (a, b) = (places.a.unwrap_or(0), places.b.unwrap_or(0));
    a != b && a.max(b) == 12 && a.min(b) >= 8
}

#[test]
fn what_a_client_wrote_on_its_thread_is_found_behind_the_joins(
    rt: HostRuntime,
) -> Result<(), Fail> {
    let places = three_writes(&rt, rt.alloc())?;
    assert!(rt; matches!(places, Some(places) if is_found_behind_the_joins(places)));
    Ok(())
}

#[test]
fn each_client_writes_once(rt: HostRuntime) -> Result<(), Fail> {
    let places = three_writes(&rt, rt.alloc())?;
    assert!(rt; matches!(places, Some(places) if are_written_once(places)));
    Ok(())
}
