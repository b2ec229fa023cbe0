//! What is said of an outcome on the line of its reply, and the lines that follow it.

ghost use Rattle.std.specs.Prelude.{◌≡◌, ◌++◌, IfOk, OnOk, codes};
ghost use Rattle.std.specs.List.{flat_map};
ghost use Rattle.reply_text.specs.Replies.{field, version_text, held_text, outcome_text, life_text, version_line, newest_text, symbol_line};

use crate::line::{
    push_end, push_field, push_int, push_place, push_refusal, push_text, push_version,
};
use base_types::NoMemory;
use reply_model::{HeldAt, Outcome, SymbolRow, VersionRow};
use std::alloc::Global;

/// Adds that all is well, with a version.
#[tactic(auto, using(crate::proofs::Lines::lines))]
fn push_ok_version(line: &mut Vec<u8>, version: u64) -> Result<(), NoMemory>
    ensures { OnOk result (line.new.items ≡ line.old.items ++ (codes "ok " ++ version_text version)) }
{
    push_text(line, "ok ")?;
    push_version(line, version)
}

/// Adds that all is well, with a version and a field.
#[tactic(auto, using(crate::proofs::Lines::lines))]
fn push_ok_version_field(
    line: &mut Vec<u8>,
    version: u64,
    name: &str,
    number: u64,
) -> Result<(), NoMemory>
    ensures { OnOk result (line.new.items ≡ line.old.items ++ (codes "ok " ++ version_text version ++ field name.now number)) }
{
    push_text(line, "ok ")?;
    push_version(line, version)?;
    push_field(line, name, number)
}

/// Adds what was done, and a field.
#[tactic(auto, using(crate::proofs::Lines::lines))]
fn push_count(line: &mut Vec<u8>, done: &str, name: &str, number: u64) -> Result<(), NoMemory>
    ensures { OnOk result (line.new.items ≡ line.old.items ++ (done.now ++ field name.now number)) }
{
    push_text(line, done)?;
    push_field(line, name, number)
}

/// Adds how many keys were dropped.
#[tactic(auto, using(crate::proofs::Lines::lines))]
fn push_freed(line: &mut Vec<u8>, tiles: u64, indexes: u64, staged: u64) -> Result<(), NoMemory>
    ensures { OnOk result (line.new.items ≡ line.old.items ++ (codes "ok freed" ++ field (codes "data") tiles ++ field (codes "index") indexes ++ field (codes "staged") staged)) }
{
    push_text(line, "ok freed")?;
    push_field(line, "data", tiles)?;
    push_field(line, "index", indexes)?;
    push_field(line, "staged", staged)
}

/// Adds how many keys are stored.
#[tactic(auto, using(crate::proofs::Lines::lines))]
fn push_keys(
    line: &mut Vec<u8>,
    tiles: u64,
    indexes: u64,
    versions: u64,
    refs: u64,
    staged: u64,
) -> Result<(), NoMemory>
    ensures { OnOk result (line.new.items ≡ line.old.items ++ (codes "ok" ++ field (codes "data") tiles ++ field (codes "index") indexes ++ field (codes "version") versions ++ field (codes "ref") refs ++ field (codes "staged") staged)) }
{
    push_text(line, "ok")?;
    push_field(line, "data", tiles)?;
    push_field(line, "index", indexes)?;
    push_field(line, "version", versions)?;
    push_field(line, "ref", refs)?;
    push_field(line, "staged", staged)
}

/// Adds a symbol that a snapshot holds.
#[tactic(auto, using(crate::proofs::Lines::lines), unfolding(crate::specs::Replies::held_text))]
fn push_held(line: &mut Vec<u8>, held: &HeldAt) -> Result<(), NoMemory>
    ensures { OnOk result (line.new.items ≡ line.old.items ++ held_text held.now) }
{
    push_text(line, " ")?;
    push_text(line, held.symbol.name().text())?;
    push_text(line, ":")?;
    push_version(line, held.version)?;
    push_place(line, held.place)
}

/// Adds the symbols that a snapshot holds.
fn push_all_held(line: &mut Vec<u8>, held: &[HeldAt]) -> Result<(), NoMemory>
    ensures { OnOk result (line.new.items ≡ line.old.items ++ flat_map held_text held.now) }
{
    for one in held {
        push_held(line, one)?;
    }
    Ok(())
}

/// Adds that the snapshot stands, and what it holds.
#[tactic(auto, using(crate::proofs::Lines::lines))]
fn push_kept(line: &mut Vec<u8>, held: &[HeldAt]) -> Result<(), NoMemory>
    ensures { OnOk result (line.new.items ≡ line.old.items ++ (codes "ok kept" ++ flat_map held_text held.now)) }
{
    push_text(line, "ok kept")?;
    push_all_held(line, held)
}

/// Adds what is said of an outcome.
#[tactic(auto, unfolding(crate::specs::Replies::outcome_text))]
pub fn push_outcome(line: &mut Vec<u8>, outcome: &Outcome) -> Result<(), NoMemory>
    ensures { OnOk result (line.new.items ≡ line.old.items ++ outcome_text outcome.now) }
{
    match outcome {
        Outcome::Committed { version } => push_ok_version(line, *version),
        Outcome::Staged => push_text(line, "ok staged"),
        Outcome::Finalized { version, pieces } => {
            push_ok_version_field(line, *version, "pieces", *pieces)
        }
        Outcome::Discarded { pieces } => push_count(line, "ok discarded", "pieces", *pieces),
        Outcome::Deleted { versions } => push_count(line, "ok deleted", "versions", *versions),
        Outcome::Pruned { versions } => push_count(line, "ok pruned", "versions", *versions),
        Outcome::Freed {
            tiles,
            indexes,
            staged,
        } => push_freed(line, *tiles, *indexes, *staged),
        Outcome::Kept { held } => push_kept(line, held.items()),
        Outcome::Unkept => push_text(line, "ok unkept"),
        Outcome::Whole { version, frame } => {
            push_ok_version_field(line, *version, "rows", frame.rows())
        }
        Outcome::Versions { rows } => push_count(line, "ok", "versions", rows.len() as u64),
        Outcome::Symbols { rows } => push_count(line, "ok", "symbols", rows.len() as u64),
        Outcome::Snapshots { names } => push_count(line, "ok", "snapshots", names.len() as u64),
        Outcome::Keys {
            tiles,
            indexes,
            versions,
            refs,
            staged,
        } => push_keys(line, *tiles, *indexes, *versions, *refs, *staged),
        Outcome::Refused { why } => push_refusal(line, *why),
    }
}

fn life_text(live: bool) -> &'static str
    ensures { result.now ≡ life_text live }
{
    if live { " live" } else { " buried" }
}

/// The line of a version.
#[tactic(auto, using(crate::proofs::Lines::lines), unfolding(crate::specs::Replies::version_line))]
pub fn version_line(alloc: Global, row: &VersionRow) -> Result<Vec<u8>, NoMemory>
    ensures { IfOk result (λ line. line.items ≡ version_line row.now) }
{
    let mut line = Vec::new(alloc);
    push_version(&mut line, row.version)?;
    push_text(&mut line, " at=")?;
    push_int(&mut line, row.stamp)?;
    push_text(&mut line, life_text(row.live))?;
    push_field(&mut line, "holds", row.holds)?;
    push_end(&mut line)?;
    Ok(line)
}

/// Adds a symbol's latest live version, or that there is none.
#[tactic(auto, using(crate::proofs::Lines::lines), unfolding(crate::specs::Replies::newest_text))]
fn push_newest(line: &mut Vec<u8>, newest: Option<u64>) -> Result<(), NoMemory>
    ensures { OnOk result (line.new.items ≡ line.old.items ++ newest_text newest) }
{
    match newest {
        None => push_text(line, " -"),
        Some(version) => {
            push_text(line, " ")?;
            push_version(line, version)
        }
    }
}

/// The line of a symbol.
#[tactic(auto, using(crate::proofs::Lines::lines), unfolding(crate::specs::Replies::symbol_line))]
pub fn symbol_line(alloc: Global, row: &SymbolRow) -> Result<Vec<u8>, NoMemory>
    ensures { IfOk result (λ line. line.items ≡ symbol_line row.now) }
{
    let mut line = Vec::new(alloc);
    push_text(&mut line, row.symbol.name().text())?;
    push_newest(&mut line, row.newest)?;
    push_place(&mut line, row.place)?;
    push_end(&mut line)?;
    Ok(line)
}
