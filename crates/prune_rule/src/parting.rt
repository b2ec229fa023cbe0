//! Which versions of a symbol are kept.

ghost use Rattle.std.specs.Prelude.{◌≡◌, ◌||◌, ℕ, not, nat_eq, IfOk, OnOk};
ghost use Rattle.std.specs.List.{list_any};
ghost use Rattle.prune_rule.specs.DeadKeys.{has_number, AreParted, PartsFrom};

use base_types::{Items, NoMemory};
use std::alloc::Global;
use std::collections::BTreeSet;
use store_model::{HoldRow, LinkRow};

/// Rows of a symbol's links.
#[derive(Drop)]
pub(crate) struct Rows {
    /// Those of versions that are live or held.
    pub kept: Items<LinkRow>,
    /// The others.
    pub dead: Items<LinkRow>,
}

/// The links of kept versions, and the others, where these versions are buried and these held. They are moved and not copied.
pub(crate) fn part_rows(
    alloc: Global,
    links: Items<LinkRow>,
    tombs: &[u64],
    holds: &[HoldRow],
) -> Result<Rows, NoMemory>
    ensures { IfOk result (AreParted links tombs.now holds.now) }
{
    let buried = number_set(alloc, tombs)?;
    let held = held_set(alloc, holds)?;
    let mut rows = Rows {
        kept: Items::new(alloc),
        dead: Items::new(alloc),
    };
    let mut rest = links.into_vec();
    while let Some(row) = rest.pop() {
        add_row(&mut rows, row, &buried, &held)?;
    }
    Ok(rows)
}

/// Adds a row to those of its kind.
fn add_row(
    rows: &mut Rows,
    row: LinkRow,
    buried: &BTreeSet<u64>,
    held: &BTreeSet<u64>,
) -> Result<(), NoMemory>
    ensures { OnOk result (PartsFrom buried.now held.now row rows.old rows.new) }
{
    if is_kept(buried, held, row.version) {
        rows.kept.push(row)?;
        return Ok(());
    }
    rows.dead.push(row)?;
    Ok(())
}

/// Whether a version is not among the buried ones, or is among the held ones.
fn is_kept(buried: &BTreeSet<u64>, held: &BTreeSet<u64>, version: u64) -> bool
    ensures { result ≡ (not (has_number buried.now version) || has_number held.now version) }
{
    !buried.contains(&version) || held.contains(&version)
}

/// A set of these numbers.
fn number_set(alloc: Global, numbers: &[u64]) -> Result<BTreeSet<u64>, NoMemory>
    ensures { IfOk result (λ set. (n : ℕ) → has_number set n ≡ list_any (nat_eq n) numbers.now) }
{
    let mut set = BTreeSet::new(alloc);
    for place in (0..numbers.len()).rev() {
        note_number(&mut set, numbers[place])?;
    }
    Ok(set)
}

/// A set of the versions that are held.
fn held_set(alloc: Global, holds: &[HoldRow]) -> Result<BTreeSet<u64>, NoMemory>
    ensures { IfOk result (λ set. (n : ℕ) → has_number set n ≡ list_any (λ hold. nat_eq n hold.version) holds.now) }
{
    let mut set = BTreeSet::new(alloc);
    for place in (0..holds.len()).rev() {
        note_number(&mut set, holds[place].version)?;
    }
    Ok(set)
}

/// Puts a number into a set.
fn note_number(set: &mut BTreeSet<u64>, number: u64) -> Result<(), NoMemory>
    ensures { OnOk result ((n : ℕ) → has_number set.new n ≡ (nat_eq n number || has_number set.old n)) }
{
    set.insert(number)?;
    Ok(())
}
