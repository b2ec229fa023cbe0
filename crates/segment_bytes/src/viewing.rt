ghost use Rattle.std.specs.Prelude.{◌≡◌, ◌<◌, ℕ, length, slice_get, IfOk, IfErr, IsOkAnd, Ok, Some};
ghost use Rattle.byte_fields.specs.Reading.{fault_at};
ghost use Rattle.byte_fields.specs.Readers.{Gives};
ghost use Rattle.frame_core.specs.Frames.{Frame as Table, stamp_at, cell_at, type_at, cell_of};
ghost use Rattle.frame_core.specs.Columns.{cells_of};
ghost use Rattle.frame_core.specs.declared.cell.Cell.TheVariants.{Int as int_cell, Flag as flag_cell, Text as text_cell, Stamp as stamp_cell};
ghost use Rattle.frame_core.specs.Limits.{IsStorable};
ghost use Rattle.segment_bytes.specs.Sheets.{sheet_of};
ghost use Rattle.segment_bytes.specs.Segments.{segment_text, segment_of};
ghost use Rattle.segment_bytes.specs.Skipping.{parts_at};
ghost use Rattle.segment_bytes.specs.Views.{name_of};

use crate::column_view::{ColumnView, number_in, text_in};
use crate::columns::{find_column, skip_columns};
use crate::copying::{copy_columns, copy_names, copy_stamps};
use crate::named_column::{NamedColumn, split_columns};
use crate::sheet::{read_count, read_rows, skip_stamps};
use byte_fields::{read_bytes, read_magic, read_u16, read_u32};
use frame_core::{CellRef, ColType, Frame, Items, NoMemory, RawFrame};
use std::alloc::Global;
use std::marker::Model;

/// Where bytes are no segment: the place of the first field that is not whole or breaks its rule.
#[derive(Clone, Copy, Debug)]
pub struct SegFault {
    /// The place of the first field that is not whole or breaks its rule.
    pub at: u64,
}

/// The frame that bytes spell, read where they lie. Contracts see the frame.
#[derive(Drop)]
pub struct SegView<'a> {
    bytes: &'a [u8],
    rows: u32,
    count: u16,
    stamps: &'a [u8],
    columns: &'a [u8],
}

impl<'a> Model for SegView<'a> {
    ghost use Rattle.frame_core.specs.Frames.{Frame};
    ghost use Rattle.segment_bytes.specs.Views.{frame_in, IsView};

    ghost Value = { Frame };

    ghost view = { λ v. frame_in v.bytes.now };

    ghost invariant = { λ v. IsView v.bytes.now v.rows v.count v.stamps.now v.columns.now };
}

/// Reads bytes as a segment, in one pass and without memory.
///
/// The bytes are `ASG1`; the number of rows (4 bytes, at most 2,000,000) and of columns (2 bytes, at most 4,096, and at
/// most 8,000,000 cells); a stamp for each row (8 bytes), never falling; and for each column its type (1 byte: 1 `Int`,
/// 2 `Flag`, 3 `Text`, 4 `Stamp`), the length of its name (1 byte, at least 1), its name in UTF-8, which no column before
/// has, and its cells: 8 bytes each for `Int` and `Stamp`, 1 byte each for `Flag`, 0 or 1; for `Text` where each text
/// ends (4 bytes, never falling, each at most 65,535 above the one before, at most 67,108,864 bytes in all texts of the
/// segment), and then the texts, each of them UTF-8. Nothing follows. Numbers have the high byte first.
pub fn view(bytes: &[u8]) -> Result<SegView<'_>, SegFault>
    // What is read is what the bytes spell; and what they spell is read.
    ensures found { IfOk result (λ v. segment_of bytes.now ≡ Ok v) }
    ensures only { (f : Table) → segment_of bytes.now ≡ Ok f → IsOkAnd result (λ v. v ≡ f) }
    // A fault is that of the first bad field.
    ensures fault { IfErr result (λ e. fault_at (length bytes.now) (segment_of bytes.now) ≡ Some e.at) }
    ensures spelled { IfOk result (λ v. bytes.now ≡ segment_text v) }
    ensures storable { IfOk result IsStorable }
{
    match read_segment(bytes) {
        Ok(view) => Ok(view),
        Err(left) => Err(SegFault {
            at: bytes.len().saturating_sub(left) as u64,
        }),
    }
}

#[tactic(auto, unfolding(crate::specs::Segments::segment_of, crate::specs::Segments::sheet_spelled, crate::specs::Sheets::sheet_at))]
fn read_segment(bytes: &[u8]) -> Result<SegView<'_>, usize>
    ensures { Gives (λ v. v) result (segment_of bytes.now) }
{
    let rest = read_magic(b"ASG1".as_slice(), bytes)?;
    let (rows, rest) = read_rows(rest)?;
    let (count, stamps) = read_count(rows, rest)?;
    let columns = skip_stamps(rows, stamps)?;
    let end = skip_columns(rows, count, columns)?;
    if !end.is_empty() {
        return Err(end.len());
    }
    Ok(SegView {
        bytes,
        rows,
        count,
        stamps,
        columns,
    })
}

/// The view of bytes that are known to be a segment, in constant time: nothing in them is tested.
pub fn view_spelled(bytes: &[u8]) -> SegView<'_>
    requires { (f : Table) × (segment_of bytes.now ≡ Ok f) }
    ensures found { segment_of bytes.now ≡ Ok result }
    ensures spelled { bytes.now ≡ segment_text result }
    ensures storable { IsStorable result }
{
    match parts(bytes) {
        Ok((rows, count, stamps, columns)) => SegView {
            bytes,
            rows,
            count,
            stamps,
            columns,
        },
        Err(_) => unreachable!(),
    }
}

/// How many rows and columns there are, the bytes from the stamps on, and those from the columns on.
#[tactic(auto, unfolding(crate::specs::Skipping::parts_at))]
fn parts(bytes: &[u8]) -> Result<(u32, u16, &[u8], &[u8]), usize>
    ensures { Gives (λ x. ((x.0, x.1, x.2.now), x.3.now)) result (parts_at bytes.now) }
{
    let (_, rest) = read_bytes(4, bytes)?;
    let (rows, rest) = read_u32(rest)?;
    let (count, stamps) = read_u16(rest)?;
    let (_, columns) = read_bytes(8 * rows as usize, stamps)?;
    Ok((rows, count, stamps, columns))
}

impl<'a> SegView<'a> {
    /// How many rows there are.
    pub fn rows(&self) -> u64
        ensures rows { result ≡ length self.now.rows }
        ensures storable { IsStorable self.now }
    {
        self.rows as u64
    }

    /// How many columns there are.
    pub fn cols(&self) -> u64
        ensures { result ≡ length self.now.schema.columns }
    {
        self.count as u64
    }

    /// The stamp of a row, counted from 0, in constant time.
    pub fn stamp(&self, row: u64) -> i64
        requires { row < length self.now.rows }
        ensures { stamp_at self.now row ≡ Some result }
    {
        number_in(self.stamps, row as usize)
    }

    /// The name of a column, counted from 0, lent from the viewed bytes.
    pub fn name(&self, col: u64) -> &'a str
        requires { col < length self.now.schema.columns }
        ensures { name_of self.now col ≡ Some result.now }
    {
        text_in(find_column(self.rows, self.columns, col).name)
    }

    /// The type of a column, counted from 0.
    pub fn kind(&self, col: u64) -> ColType
        requires { col < length self.now.schema.columns }
        ensures { type_at self.now col ≡ Some result }
    {
        find_column(self.rows, self.columns, col).kind
    }

    /// The cells of a column, counted from 0. Finding it skips each column before it in constant time; for loops over its
    /// rows it is found once.
    pub fn column(&self, col: u64) -> ColumnView<'a>
        requires { col < length self.now.schema.columns }
        ensures kind { type_at self.now col ≡ Some result.0 }
        ensures cells { result.1 ≡ cells_of col self.now.rows }
        ensures len { length result.1 ≡ length self.now.rows }
        ensures at { (row : ℕ) → cell_at self.now row col ≡ slice_get result.1 row }
    {
        let found = find_column(self.rows, self.columns, col);
        ColumnView::new(found.kind, self.rows, found.cells)
    }

    /// Each column with its name, found in one pass that skips their cells in constant time.
    pub fn columns(&self, alloc: Global) -> Result<Items<NamedColumn<'a>>, NoMemory>
        ensures { IfOk result (λ columns. columns ≡ (sheet_of self.now).columns) }
    {
        split_columns(alloc, self.rows, self.count, self.columns)
    }

    /// The cell of a column at a row, both counted from 0.
    pub fn cell(&self, col: u64, row: u64) -> CellRef<'a>
        requires row { row < length self.now.rows }
        requires col { col < length self.now.schema.columns }
        ensures { cell_at self.now row col ≡ Some (cell_of result) }
    {
        self.column(col).cell(row)
    }

    /// The whole number of an `Int` column at a row, both counted from 0.
    pub fn int(&self, col: u64, row: u64) -> i64
        requires row { row < length self.now.rows }
        requires kind { type_at self.now col ≡ Some ColType.Int }
        ensures { cell_at self.now row col ≡ Some (int_cell result) }
    {
        self.column(col).int(row)
    }

    /// The flag of a `Flag` column at a row, both counted from 0.
    pub fn flag(&self, col: u64, row: u64) -> bool
        requires row { row < length self.now.rows }
        requires kind { type_at self.now col ≡ Some ColType.Flag }
        ensures { cell_at self.now row col ≡ Some (flag_cell result) }
    {
        self.column(col).flag(row)
    }

    /// The text of a `Text` column at a row, both counted from 0. It is lent from the viewed bytes.
    pub fn text(&self, col: u64, row: u64) -> &'a str
        requires row { row < length self.now.rows }
        requires kind { type_at self.now col ≡ Some ColType.Text }
        ensures { cell_at self.now row col ≡ Some (text_cell result.now) }
    {
        self.column(col).text(row)
    }

    /// The moment of a `Stamp` column at a row, both counted from 0.
    pub fn stamp_cell(&self, col: u64, row: u64) -> i64
        requires row { row < length self.now.rows }
        requires kind { type_at self.now col ≡ Some ColType.Stamp }
        ensures { cell_at self.now row col ≡ Some (stamp_cell result) }
    {
        self.column(col).stamp(row)
    }

    /// The frame, in memory of its own.
    pub fn to_frame(&self, alloc: Global) -> Result<Frame, NoMemory>
        ensures { IfOk result (λ frame. frame ≡ self.now) }
    {
        // Opens the view, so that the proof knows what it keeps of the bytes.
        let _ = &self.bytes;
        let raw = RawFrame {
            stamps: copy_stamps(alloc, self)?,
            names: copy_names(alloc, self)?,
            columns: copy_columns(alloc, self)?,
        };
        match Frame::make(alloc, &raw) {
            Ok(frame) => Ok(frame),
            Err(_) => Err(NoMemory),
        }
    }
}
