ghost use Rattle.std.specs.Prelude.{◌≡◌, filter, IfOk};
ghost use Rattle.std.specs.List.Sorted.{IsNonDecreasing, IsPermutation};
ghost use Rattle.key_kind.specs.declared.key.Key.{Key};
ghost use Rattle.index_tree.specs.SlotTexts.{slot_with};
ghost use Rattle.index_tree.specs.Covering.{shares_stamps as stamps_shared, has_one as one_had, covers, places_where};

use crate::index::{Index, Slot};
use crate::slot_text::{SlotText, pass_slot, read_slot};
use crate::span::Span;
use base_types::{Items, NoMemory};
use frame_core::{Part, Range};
use std::alloc::Global;

/// The places of the slots that share a stamp interval with the range and have one of the columns, in order. Places and
/// columns are counted from 0. Where no columns are asked, the first slice of each row block is taken.
///
/// The columns may stand in any order; they are sorted once, so that no slot looks at all of them.
pub fn covering(
    alloc: Global,
    index: &Index,
    range: Range,
    columns: &[u64],
) -> Result<Items<u64>, NoMemory>
    ensures { IfOk result (λ places. places ≡ places_where (covers range columns.now) index.now.slots) }
{
    let columns = rising(alloc, columns)?;
    let mut places = Items::with_capacity(alloc, index.slots.len())?;
    for place in 0..index.slots.len() {
        if is_covered(range, &columns, &index.slots.at(place).span()) {
            places.push(place as u64)?;
        }
    }
    Ok(places)
}

/// The slots that share a stamp interval with the range and have one of the columns, in order, in memory of their own. Columns are
/// counted from 0, in any order. Where none is asked, the first slice of each row block is taken.
///
/// Of each other slot only the length of its key's name, and its rows, columns and stamps are read, where they lie.
pub fn covered(
    alloc: Global,
    slots: &SlotText,
    range: Range,
    columns: &[u64],
) -> Result<Items<Slot>, NoMemory>
    ensures { IfOk result (λ found. found ≡ filter (covers range columns.now) slots.now) }
{
    let columns = rising(alloc, columns)?;
    let mut found = Items::new(alloc);
    let mut rest = slots.bytes();
    for _ in 0..slots.len() {
        let (span, after) = pass_slot(rest);
        if is_covered(range, &columns, &span) {
            let (slot, _after) = read_slot(alloc, rest)?;
            found.push(slot)?;
        }
        rest = after;
    }
    Ok(found)
}

/// The columns in rising order.
fn rising(alloc: Global, columns: &[u64]) -> Result<Vec<u64>, NoMemory>
    ensures sorted { IfOk result (λ v. IsNonDecreasing v.items) }
    ensures permutation { IfOk result (λ v. IsPermutation columns.now v.items) }
{
    let mut rising = Vec::from_slice(alloc, columns)?;
    rising.sort_unstable();
    Ok(rising)
}

/// Whether a slot of these rows, columns and stamps is asked by the range and the columns, which rise.
fn is_covered(range: Range, columns: &[u64], span: &Span) -> bool
    requires { IsNonDecreasing columns.now }
    ensures { (key : Key) → result ≡ covers range columns.now (slot_with key span.now) }
{
    shares_stamps(range, span) && has_one(columns, &span.part)
}

/// Whether the stamps of a slot do not all lie below the range, nor all above it.
fn shares_stamps(range: Range, span: &Span) -> bool
    ensures { (key : Key) → result ≡ stamps_shared range (slot_with key span.now) }
{
    let ends_below = match range.from() {
        Some(from) => span.last < from,
        None => false,
    };
    let begins_above = match range.to() {
        Some(to) => to < span.first,
        None => false,
    };
    !ends_below && !begins_above
}

/// Whether a part has one of the columns, which rise; where there is none, whether it begins at column 0.
fn has_one(columns: &[u64], part: &Part) -> bool
    requires { IsNonDecreasing columns.now }
    ensures { result ≡ one_had columns.now part.now }
{
    if columns.is_empty() {
        return part.first_col == 0;
    }
    let first = part.first_col;
    let place = columns.partition_point(|column| *column < first);
    place < columns.len() && columns[place] - first < part.cols
}
