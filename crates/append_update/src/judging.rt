//! Whether a frame may go on from a base, told by the base's index.

ghost use Rattle.std.specs.Prelude.{◌≡◌, ◌≤◌, ◌-◌, ℤ, Bool, Some, Err, length, option_map, slice_get, IfOk, IfErr};
ghost use Rattle.frame_core.specs.Schemas.{same_column, differs_from, schemas_differ};
ghost use Rattle.frame_core.specs.Frames.{Frame as Table};
ghost use Rattle.frame_core.specs.Limits.{too_large, IsStorable};
ghost use Rattle.store_model.specs.Library.{State, Version, base_of};
ghost use Rattle.reply_model.specs.Answering.{append_before};
ghost use Rattle.reply_model.specs.CommitAnswers.{append_answer};
ghost use Rattle.index_tree.specs.declared.index.Slot.{Slot as Place};
ghost use Rattle.append_update.specs.Bases.{IsIndexOf};
ghost use Rattle.reply_model.specs.Losses.{FitsBehind};

use frame_core::{ColName, ColType, Extent, Frame, Refusal, Schema};
use index_tree::PackedIndex;

/// Whether a frame may be appended to the base of this index, but for the bytes of all texts.
pub(crate) fn judge_append(index: &PackedIndex, frame: &Frame) -> Result<(), Refusal>
    requires storable { IsStorable frame.now }
    requires rows { index.now.rows ≤ 2000000 }
    ensures judged { IfOk result (λ done. (base : Table) → IsIndexOf base index.now → FitsBehind base frame.now) }
    ensures refused { IfErr result (λ why. (v : Version) (st : State) (prune : Bool) (at : ℤ) → IsIndexOf v.frame index.now → base_of st ≡ Some v → append_answer st prune at frame.now ≡ Err why) }
{
    if let Some(column) = first_difference(index.schema(), frame.schema()) {
        return Err(Refusal::SchemaDiffers { column });
    }
    if let Some(ends) = begins_before(last_stamp_of(index), frame.first_stamp()) {
        return Err(early(ends));
    }
    let rows = index.rows() + frame.rows();
    let columns = frame.schema().len() as u64;
    if let Some((what, limit)) = exceeded(rows, columns, 0) {
        return Err(Refusal::TooLarge { what, limit });
    }
    Ok(())
}

/// The least column, counted from 1, at which the columns of two schemas differ, or where one has a column more.
pub(crate) fn first_difference(first: &Schema, other: &Schema) -> Option<u64>
    ensures { result ≡ schemas_differ first.now other.now }
{
    differing_column(first.columns(), other.columns())
}

/// The least place, counted from 1, at which these differ, or where one list has a column more.
fn differing_column(first: &[(ColName, ColType)], other: &[(ColName, ColType)]) -> Option<u64>
    ensures { result ≡ differs_from 1 first.now other.now }
{
    for place in 0..first.len().max(other.len()) {
        if place >= first.len() {
            return Some(place as u64 + 1);
        }
        if place >= other.len() {
            return Some(place as u64 + 1);
        }
        if !is_same(&first[place], &other[place]) {
            return Some(place as u64 + 1);
        }
    }
    None
}

/// Whether two columns have the same name and type.
fn is_same(one: &(ColName, ColType), other: &(ColName, ColType)) -> bool
    ensures { result ≡ same_column one.now other.now }
{
    one.0 == other.0 && one.1 == other.1
}

/// The last stamp of a base and the first of a frame, where this one lies below.
pub(crate) fn begins_before(last: Option<i64>, first: Option<i64>) -> Option<(i64, i64)>
    ensures { result ≡ append_before last first }
{
    match (last, first) {
        (Some(last), Some(first)) if first < last => Some((last, first)),
        _ => None,
    }
}

/// The refusal of a first stamp that lies below the last.
fn early(ends: (i64, i64)) -> Refusal
    ensures { result ≡ Refusal.AppendBefore ends.0 ends.1 }
{
    Refusal::AppendBefore {
        last: ends.0,
        first: ends.1,
    }
}

/// The stamp of the last row of the frame that an index tells.
pub(crate) fn last_stamp_of(index: &PackedIndex) -> Option<i64>
    ensures { result ≡ option_map (λ (s : Place). s.last) (slice_get index.now.slots (length index.now.slots - 1)) }
{
    match index.slots().last() {
        Some(span) => Some(span.last),
        None => None,
    }
}

/// The first limit that so many rows and columns, or so many bytes of text in all, exceed.
pub(crate) fn exceeded(rows: u64, columns: u64, text_bytes: u64) -> Option<(Extent, u64)>
    ensures { result ≡ too_large rows columns 0 text_bytes }
{
    if rows > 2_000_000 {
        return Some((Extent::Rows, 2_000_000));
    }
    if columns > 4_096 {
        return Some((Extent::Columns, 4_096));
    }
    if rows * columns > 8_000_000 {
        return Some((Extent::Cells, 8_000_000));
    }
    if text_bytes > 67_108_864 {
        return Some((Extent::TextBytes, 67_108_864));
    }
    None
}
