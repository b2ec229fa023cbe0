//! Commands of S as data, and the one place where a library carries them out.

ghost use Rattle.std.specs.Prelude.{◌≡◌, ◌<◌, ◌≤◌, true, length, IfOk};
ghost use Rattle.library_api.specs.Steps.{is_carried_out, IsNamed};

use base_types::{Items, NoMemory};
use bucket_core::Bucket;
use expr_clause::{AsOf, Command};
use frame_core::{ColName, Column, Range, RawFrame, Refusal};
use key_kind::Symbol;
use library_api::{Library, Settings};
use reply_model::{Outcome, Reply};
use segment_cut::Cutting;
use std::alloc::Global;
use std::sync::Wait;
use version_chain::StoreLaw;

/// Rows of one column, told by their stamps.
#[derive(Clone, Copy)]
pub(crate) enum Rows {
    /// 1, 2, 2, 4 and 9.
    Five,
    /// 7 and 8.
    Two,
    /// 9.
    One,
}

/// A command of S.
#[derive(Clone, Copy)]
pub(crate) enum Ask {
    Write(Rows),
    /// The same, which buries what was live before.
    Replace(Rows),
    Append(Rows),
    Read,
    Keys,
    Reclaim,
}

/// What a reply tells.
#[derive(Clone, Copy, PartialEq, Eq)]
pub(crate) enum Told {
    /// The new version.
    Committed(u64),
    /// The version and its number of rows.
    Whole(u64, u64),
    /// How many tiles and indexes are stored.
    Keys(u64, u64),
    /// How many tiles, indexes and pieces were dropped.
    Freed(u64, u64, u64),
    Refused(Refusal),
    /// Something else.
    Else,
}

/// The place of a reply and what it tells.
pub(crate) type Answer = (u64, Told);

/// The symbol S.
pub(crate) fn symbol(alloc: Global) -> Result<Symbol, NoMemory> {
    match Symbol::make(alloc, "S") {
        Ok(symbol) => Ok(symbol),
        Err(_) => Err(NoMemory),
    }
}

fn tries(twice: bool) -> u32
    ensures { (1 ≤ result) × (result ≤ 1000) }
{
    if twice { 2 } else { 1 }
}

/// The library of a bucket, with tiles of so many rows and the moment 50, and with one try or two.
pub(crate) fn library<B>(bucket: B, rows: u32, twice: bool) -> Library<B> {
    Library::make(
        bucket,
        Settings {
            cutting: Cutting::make(rows, 127).unwrap_or(Cutting::largest()),
            tries: tries(twice),
            workers: 1,
            moment: 50,
        },
    )
}

fn stamps_of(rows: Rows) -> &'static [i64] {
    match rows {
        Rows::Five => &[1, 2, 2, 4, 9],
        Rows::Two => &[7, 8],
        Rows::One => &[9],
    }
}

// Rows of one column, with these stamps.
fn raw_rows(alloc: Global, stamps: &[i64]) -> Result<RawFrame, NoMemory> {
    let mut raw = RawFrame {
        stamps: Items::from_slice(alloc, stamps)?,
        names: Items::new(alloc),
        columns: Items::new(alloc),
    };
    match ColName::make(alloc, "price") {
        Ok(name) => raw.names.push(name)?,
        Err(_) => return Err(NoMemory),
    }
    raw.columns
        .push(Column::Ints(Items::from_slice(alloc, stamps)?))?;
    Ok(raw)
}

// The frame that a command names, if it names one.
fn frames_of(alloc: Global, ask: Ask) -> Result<Items<RawFrame>, NoMemory>
    ensures { IfOk result (λ frames. 0 < length frames) }
{
    let stamps = match ask {
        Ask::Write(rows) | Ask::Replace(rows) | Ask::Append(rows) => stamps_of(rows),
        Ask::Read | Ask::Keys | Ask::Reclaim => &[],
    };
    let mut frames = Items::new(alloc);
    frames.push(raw_rows(alloc, stamps)?)?;
    Ok(frames)
}

// The range without ends.
fn everything() -> Range {
    Range::make(None, None).unwrap()
}

fn command_of(alloc: Global, ask: Ask, frames: &[RawFrame]) -> Result<Command, NoMemory>
    requires { 0 < length frames.now }
    ensures served { IfOk result (λ command. is_carried_out command ≡ true) }
    ensures named { IfOk result (λ command. IsNamed (length frames.now) command) }
{
    let symbol = symbol(alloc)?;
    Ok(match ask {
        Ask::Write(_) => Command::Write {
            symbol,
            frame: 0,
            at: None,
            prune: false,
        },
        Ask::Replace(_) => Command::Write {
            symbol,
            frame: 0,
            at: None,
            prune: true,
        },
        Ask::Append(_) => Command::Append {
            symbol,
            frame: 0,
            at: None,
            prune: false,
        },
        Ask::Read => Command::Read {
            symbol,
            as_of: AsOf::Back(1),
            range: everything(),
            columns: None,
            clauses: Items::new(alloc),
        },
        Ask::Keys => Command::Keys { symbol },
        Ask::Reclaim => Command::Reclaim { symbol },
    })
}

fn told_by(reply: &Reply) -> Told {
    match &reply.outcome {
        Outcome::Committed { version } => Told::Committed(*version),
        Outcome::Whole { version, frame } => Told::Whole(*version, frame.rows()),
        Outcome::Keys { tiles, indexes, .. } => Told::Keys(*tiles, *indexes),
        Outcome::Freed {
            tiles,
            indexes,
            staged,
        } => Told::Freed(*tiles, *indexes, *staged),
        Outcome::Refused { why } => Told::Refused(*why),
        _ => Told::Else,
    }
}

// What the library answers. Nothing else calls its step, whose contract is long.
fn step<R: Wait, B: Bucket<StoreLaw>>(
    rt: &R,
    alloc: Global,
    library: &mut Library<B>,
    command: &Command,
    frames: &[RawFrame],
) -> Answer
    requires served { is_carried_out command.now ≡ true }
    requires named { IsNamed (length frames.now) command.now }
{
    let reply = library.step(rt, alloc, command, frames);
    (reply.place, told_by(&reply))
}

/// What the library answers to a command.
pub(crate) fn asked<R: Wait, B: Bucket<StoreLaw>>(
    rt: &R,
    alloc: Global,
    library: &mut Library<B>,
    ask: Ask,
) -> Result<Answer, NoMemory> {
    let frames = frames_of(alloc, ask)?;
    let command = command_of(alloc, ask, frames.items())?;
    Ok(step(rt, alloc, library, &command, frames.items()))
}

/// The library carries out each of these commands.
pub(crate) fn ask_all<R: Wait, B: Bucket<StoreLaw>>(
    rt: &R,
    alloc: Global,
    library: &mut Library<B>,
    asks: &[Ask],
) -> Result<(), NoMemory> {
    for ask in asks {
        let _ = asked(rt, alloc, library, *ask)?;
    }
    Ok(())
}
