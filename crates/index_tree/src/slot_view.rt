ghost use Rattle.std.specs.Prelude.{◌≡◌, ℕ, ◌&&◌, ◌+◌, IfOk, nat_eq, nat_le, if◌then◌else◌};
ghost use Rattle.byte_fields.specs.Readers.{Gives};
ghost use Rattle.key_kind.specs.Keys.{IsKey};
ghost use Rattle.key_kind.specs.KeyViews.{key_of};
ghost use Rattle.index_tree.specs.IndexText.{rules_after, slot_at};
ghost use Rattle.index_tree.specs.SlotParts.{rows_at, stamps_at, slice_at};
ghost use Rattle.index_tree.specs.SlotViews.{slot_seen};

use crate::index::Slot;
use crate::reach::Reach;
use base_types::NoMemory;
use byte_fields::{read_i64, read_u16, read_u32};
use frame_core::Part;
use key_kind::{KeyKind, KeyView, view_key_of};
use std::alloc::Global;

/// The most columns of a slice.
const MOST_COLUMNS: u16 = 127;

/// A slot as it lies in bytes: the name in its key is lent.
#[derive(Drop)]
pub struct SlotView<'a> {
    pub key: KeyView<'a>,
    pub first_row: u32,
    pub rows: u32,
    pub first: i64,
    pub last: i64,
    pub first_col: u16,
    pub cols: u16,
}

impl SlotView<'_> {
    /// The slot, with a copy of the name.
    pub fn to_slot(&self, alloc: Global) -> Result<Slot, NoMemory>
        requires { IsKey (key_of self.now.key) }
        ensures { IfOk result (λ slot. slot ≡ slot_seen self.now) }
    {
        Ok(Slot {
            key: self.key.to_key(alloc)?,
            part: Part {
                first_row: self.first_row as u64,
                rows: self.rows as u64,
                first_col: self.first_col as u64,
                cols: self.cols as u64,
            },
            first: self.first,
            last: self.last,
        })
    }
}

/// Whether a slice that begins at this column may have so many, of so many in the index.
fn takes_cols(columns: u16, first_col: u16, cols: u16) -> bool
    ensures { result ≡ (if nat_eq columns 0 then nat_eq cols 0
        else nat_le 1 cols && nat_le cols 127 && nat_le (first_col + cols) columns) }
{
    if columns == 0 {
        cols == 0
    } else {
        1 <= cols && cols <= MOST_COLUMNS && first_col as u32 + cols as u32 <= columns as u32
    }
}

/// The first row of a slot and its rows, of so many in the index, and what follows them.
fn read_rows<'a>(total: u32, reach: &Reach, bytes: &'a [u8]) -> Result<(u32, u32, &'a [u8]), usize>
    ensures { Gives (λ x. ((x.0, x.1), x.2.now)) result (rows_at (rules_after total reach.now) bytes.now) }
{
    let (first_row, at_rows) = read_u32(bytes)?;
    if !reach.takes_first_row(first_row) {
        return Err(bytes.len());
    }
    let (rows, rest) = read_u32(at_rows)?;
    if !reach.takes_rows(total, rows) {
        return Err(at_rows.len());
    }
    Ok((first_row, rows, rest))
}

/// The first and the last stamp of a slot of this key, and what follows them.
fn read_stamps<'a>(
    reach: &Reach,
    key: &KeyView<'_>,
    bytes: &'a [u8],
) -> Result<(i64, i64, &'a [u8]), usize>
    ensures { (total : ℕ) → Gives (λ x. ((x.0, x.1), x.2.now)) result (stamps_at (rules_after total reach.now) (key_of key.now) bytes.now) }
{
    let (first, at_last) = read_i64(bytes)?;
    if !reach.takes_first(key.first, first) {
        return Err(bytes.len());
    }
    let (last, rest) = read_i64(at_last)?;
    if !reach.takes_last(key.last, first, last) {
        return Err(at_last.len());
    }
    Ok((first, last, rest))
}

/// The first column of a slot and its columns, of so many in the index, and what follows them.
fn read_slice<'a>(
    columns: u16,
    reach: &Reach,
    bytes: &'a [u8],
) -> Result<(u16, u16, &'a [u8]), usize>
    ensures { (total : ℕ) → Gives (λ x. ((x.0, x.1), x.2.now)) result (slice_at columns (rules_after total reach.now) bytes.now) }
{
    let (first_col, at_cols) = read_u16(bytes)?;
    if !reach.takes_first_col(first_col) {
        return Err(bytes.len());
    }
    let (cols, rest) = read_u16(at_cols)?;
    if !takes_cols(columns, first_col, cols) {
        return Err(at_cols.len());
    }
    Ok((first_col, cols, rest))
}

/// The next slot of an index of so many rows and columns, behind slots that reach so far, and what follows it. Where a field
/// is not whole or breaks its rule, the error is how many bytes are left from it on.
pub fn read_slot<'a>(
    total: u32,
    columns: u16,
    reach: &Reach,
    bytes: &'a [u8],
) -> Result<(SlotView<'a>, &'a [u8]), usize>
    ensures gives { Gives (λ x. (slot_seen x.0, x.1.now)) result (slot_at total columns reach.now bytes.now) }
    ensures is_key { IfOk result (λ x. IsKey (key_of x.0.key)) }
{
    let (key, at_rows) = view_key_of(KeyKind::TableData, bytes)?;
    let (first_row, rows, at_stamps) = read_rows(total, reach, at_rows)?;
    let (first, last, at_slice) = read_stamps(reach, &key, at_stamps)?;
    let (first_col, cols, rest) = read_slice(columns, reach, at_slice)?;
    let slot = SlotView {
        key,
        first_row,
        rows,
        first,
        last,
        first_col,
        cols,
    };
    Ok((slot, rest))
}
