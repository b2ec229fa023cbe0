ghost use Rattle.std.specs.Prelude.{◌≡◌, ◌<◌, ◌≤◌, ◌+◌, ◌*◌, ◌^◌, ◌++◌, ◌∷◌, ℕ, ℤ, List, length, drop, slice_get, slice_index, Some, FitsSigned, IsUtf8};
ghost use Rattle.std.specs.List.{flat_map};
ghost use Rattle.std.specs.Int.{w64};
ghost use Rattle.byte_fields.specs.Reading.{signed_text};
ghost use Rattle.frame_core.specs.Frames.{cell_of};
ghost use Rattle.frame_core.specs.declared.cell.Cell.TheVariants.{Int as int_cell, Flag as flag_cell, Text as text_cell, Stamp as stamp_cell};
ghost use Rattle.segment_bytes.specs.CellTexts.{end_text, cells_text};
ghost use Rattle.segment_bytes.specs.Views.{cells_in, IsColumnView};

use byte_fields::{read_i64, read_u32};
use frame_core::{CellRef, ColType};
use std::marker::Model;

/// The cells of one column of a viewed segment, read where they lie, each in constant time. Contracts see the type of the
/// column and the list of its cells.
#[derive(Drop)]
pub struct ColumnView<'a> {
    kind: ColType,
    rows: u32,
    cells: &'a [u8],
}

impl<'a> Model for ColumnView<'a> {
    ghost use Rattle.std.specs.Prelude.{List};
    ghost use Rattle.frame_core.specs.declared.cell.ColType.{ColType};
    ghost use Rattle.frame_core.specs.declared.cell.Cell.{Cell};
    ghost use Rattle.segment_bytes.specs.Views.{cells_in, IsColumnView};

    ghost Value = { ColType × List Cell };

    ghost view = { λ v. (v.kind, cells_in v.kind v.rows v.cells.now) };

    ghost invariant = { λ v. IsColumnView v.kind v.rows v.cells.now };
}

impl<'a> ColumnView<'a> {
    /// The view of these bytes.
    pub(crate) fn new(kind: ColType, rows: u32, cells: &'a [u8]) -> ColumnView<'a>
        requires { IsColumnView kind rows cells.now }
        ensures { result ≡ (kind, cells_in kind rows cells.now) }
    {
        ColumnView { kind, rows, cells }
    }

    /// The type of the column.
    pub fn kind(&self) -> ColType
        ensures { result ≡ self.now.0 }
    {
        self.kind
    }

    /// How many cells there are.
    pub fn len(&self) -> u64
        ensures { result ≡ length self.now.1 }
    {
        self.rows as u64
    }

    /// How many bytes the cells take in the segment.
    pub fn bytes(&self) -> usize
        ensures { result ≡ length (cells_text self.now.0 self.now.1) }
    {
        self.cells.len()
    }

    /// The cell of a row, counted from 0.
    pub fn cell(&self, row: u64) -> CellRef<'a>
        requires { row < length self.now.1 }
        ensures { slice_get self.now.1 row ≡ Some (cell_of result) }
    {
        match self.kind {
            ColType::Int => CellRef::Int(self.int(row)),
            ColType::Flag => CellRef::Flag(self.flag(row)),
            ColType::Text => CellRef::Text(self.text(row)),
            ColType::Stamp => CellRef::Stamp(self.stamp(row)),
        }
    }

    /// The whole number in a row of an `Int` column, counted from 0.
    pub fn int(&self, row: u64) -> i64
        requires kind { self.now.0 ≡ ColType.Int }
        requires row { row < length self.now.1 }
        ensures { slice_get self.now.1 row ≡ Some (int_cell result) }
    {
        number_in(self.cells, row as usize)
    }

    /// The moment in a row of a `Stamp` column, counted from 0.
    pub fn stamp(&self, row: u64) -> i64
        requires kind { self.now.0 ≡ ColType.Stamp }
        requires row { row < length self.now.1 }
        ensures { slice_get self.now.1 row ≡ Some (stamp_cell result) }
    {
        number_in(self.cells, row as usize)
    }

    /// The flag in a row of a `Flag` column, counted from 0.
    pub fn flag(&self, row: u64) -> bool
        requires kind { self.now.0 ≡ ColType.Flag }
        requires row { row < length self.now.1 }
        ensures { slice_get self.now.1 row ≡ Some (flag_cell result) }
    {
        self.cells[row as usize] == 1
    }

    /// The text in a row of a `Text` column, counted from 0. It is lent from the viewed bytes.
    pub fn text(&self, row: u64) -> &'a str
        requires kind { self.now.0 ≡ ColType.Text }
        requires row { row < length self.now.1 }
        ensures { slice_get self.now.1 row ≡ Some (text_cell result.now) }
    {
        let place = row as usize;
        let (ends, texts) = self.cells.split_at(4 * self.rows as usize);
        let start = start_in(ends, place);
        let end = end_in(ends, place);
        let (_, front) = texts.split_at(start);
        let (text, _) = front.split_at(end - start);
        text_in(text)
    }
}

/// The number with a sign in the eight bytes at a place.
pub fn number_in(bytes: &[u8], place: usize) -> i64
    requires { 8 * place + 8 ≤ length bytes.now }
    ensures { (z : ℤ) (rest : List ℕ) → FitsSigned w64 z → drop (8 * place) bytes.now ≡ signed_text z ++ rest → result ≡ z }
{
    let (_, cell) = bytes.split_at(8 * place);
    match read_i64(cell) {
        Ok((number, _)) => number,
        Err(_) => unreachable!(),
    }
}

/// The end of the text at a place, in four bytes.
fn end_in(ends: &[u8], place: usize) -> usize
    requires { 4 * place + 4 ≤ length ends.now }
    ensures { (all rest : List ℕ) → ends.now ≡ flat_map end_text all ++ rest → place < length all
        → slice_index all place < 2 ^ 32 → result ≡ slice_index all place }
{
    let (_, end) = ends.split_at(4 * place);
    match read_u32(end) {
        Ok((end, _)) => end as usize,
        Err(_) => unreachable!(),
    }
}

/// Where the text at a place begins: where the one before it ends.
fn start_in(ends: &[u8], place: usize) -> usize
    requires { 4 * place ≤ length ends.now }
    ensures { (all rest : List ℕ) → ends.now ≡ flat_map end_text all ++ rest → place < length all
        → slice_index (0 ∷ all) place < 2 ^ 32 → result ≡ slice_index (0 ∷ all) place }
{
    if place == 0 {
        0
    } else {
        end_in(ends, place - 1)
    }
}

/// Bytes of UTF-8 as a text. In a view they are known to be so, and they are not tested again.
pub fn text_in(bytes: &[u8]) -> &str
    requires { IsUtf8 bytes.now }
    ensures { result.now ≡ bytes.now }
{
    unsafe { str::from_utf8_unchecked(bytes) }
}
