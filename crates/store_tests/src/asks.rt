//! Commands of S as data, and the one place where a library carries them out.

ghost use Rattle.std.specs.Prelude.{◌≡◌, ◌<◌, true, length, IfOk};
ghost use Rattle.library_api.specs.Steps.{is_carried_out, IsNamed};

use crate::stores::{raw_rows, symbol};
use base_types::Items;
use bucket_core::Bucket;
use expr_clause::{AsOf, Command};
use frame_core::{Range, RawFrame, Refusal};
use library_api::{Library, Settings};
use reply_model::{Outcome, Reply};
use segment_cut::Cutting;
use std::alloc::Global;
use std::sync::Wait;
use std::test::Fail;
use version_chain::StoreLaw;

/// A command of S; rows are told by their stamps.
#[derive(Clone, Copy)]
pub(crate) enum Ask {
    Write(&'static [i64]),
    Append(&'static [i64]),
    Update(&'static [i64]),
    Read,
    Keys,
}

/// What a reply tells.
#[derive(Clone, Copy, PartialEq, Eq)]
pub(crate) enum Told {
    /// The new version.
    Committed(u64),
    /// The version and its number of rows.
    Whole(u64, u64),
    /// How many tiles, indexes, elements, references and pieces are stored.
    Keys(u64, u64, u64, u64, u64),
    Refused(Refusal),
    /// Something else.
    Else,
}

/// The place of a reply and what it tells.
pub(crate) type Answer = (u64, Told);

/// The library of a bucket, with one try and the moment 70.
pub(crate) fn library<B>(bucket: B, cutting: Cutting) -> Library<B> {
    Library::make(
        bucket,
        Settings {
            cutting,
            tries: 1,
            workers: 4,
            moment: 70,
        },
    )
}

// The frame that a command names, if it names one.
fn frames_of(alloc: Global, ask: Ask) -> Result<Items<RawFrame>, Fail>
    ensures { IfOk result (λ frames. 0 < length frames) }
{
    let stamps = match ask {
        Ask::Write(stamps) | Ask::Append(stamps) | Ask::Update(stamps) => stamps,
        Ask::Read | Ask::Keys => &[],
    };
    let mut frames = Items::new(alloc);
    frames.push(raw_rows(alloc, &["price"], stamps)?)?;
    Ok(frames)
}

// The range without ends.
fn everything() -> Range {
    Range::make(None, None).unwrap()
}

fn command_of(alloc: Global, ask: Ask, frames: &[RawFrame]) -> Result<Command, Fail>
    requires { 0 < length frames.now }
    ensures served { IfOk result (λ command. is_carried_out command ≡ true) }
    ensures named { IfOk result (λ command. IsNamed (length frames.now) command) }
{
    let symbol = symbol(alloc)?;
    Ok(match ask {
        Ask::Write(_) => Command::Write {
            symbol,
            frame: 0,
            at: Some(50),
            prune: false,
        },
        Ask::Append(_) => Command::Append {
            symbol,
            frame: 0,
            at: Some(60),
            prune: false,
        },
        Ask::Update(_) => Command::Update {
            symbol,
            frame: 0,
            range: None,
            upsert: false,
            at: Some(60),
            prune: false,
        },
        Ask::Read => Command::Read {
            symbol,
            as_of: AsOf::Back(1),
            range: everything(),
            columns: None,
            clauses: Items::new(alloc),
        },
        Ask::Keys => Command::Keys { symbol },
    })
}

fn told_by(reply: &Reply) -> Told {
    match &reply.outcome {
        Outcome::Committed { version } => Told::Committed(*version),
        Outcome::Whole { version, frame } => Told::Whole(*version, frame.rows()),
        Outcome::Keys {
            tiles,
            indexes,
            versions,
            refs,
            staged,
        } => Told::Keys(*tiles, *indexes, *versions, *refs, *staged),
        Outcome::Refused { why } => Told::Refused(*why),
        _ => Told::Else,
    }
}

/// What the library answers. Nothing else calls its step, whose contract is long.
pub(crate) fn step<R: Wait, B: Bucket<StoreLaw>>(
    rt: &R,
    alloc: Global,
    library: &mut Library<B>,
    command: &Command,
    frames: &[RawFrame],
) -> Reply
    requires served { is_carried_out command.now ≡ true }
    requires named { IsNamed (length frames.now) command.now }
{
    library.step(rt, alloc, command, frames)
}

/// What the library answers to a command.
pub(crate) fn asked<R: Wait, B: Bucket<StoreLaw>>(
    rt: &R,
    alloc: Global,
    library: &mut Library<B>,
    ask: Ask,
) -> Result<Answer, Fail> {
    let frames = frames_of(alloc, ask)?;
    let command = command_of(alloc, ask, frames.items())?;
    let reply = step(rt, alloc, library, &command, frames.items());
    Ok((reply.place, told_by(&reply)))
}

/// Whether the library answers so to each of these commands in turn.
pub(crate) fn answers_so<R: Wait, B: Bucket<StoreLaw>>(
    rt: &R,
    alloc: Global,
    library: &mut Library<B>,
    rows: &[(Ask, Answer)],
) -> Result<bool, Fail> {
    let mut good = true;
    for (ask, answer) in rows {
        if asked(rt, alloc, library, *ask)? != *answer {
            good = false;
        }
    }
    Ok(good)
}
