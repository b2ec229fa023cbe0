//! Frames as data, and what a frame has.

ghost use Rattle.std.specs.Prelude.{IfOk};
ghost use Rattle.frame_core.specs.Limits.{IsStorable};

use frame_core::{CellRef, ColName, Column, Frame, Items, RawFrame, TextList};
use std::alloc::Global;
use std::test::Fail;

/// The cells of a column.
pub(crate) enum Cells {
    Ints(&'static [i64]),
    Flags(&'static [bool]),
    Texts(&'static [&'static str]),
}

/// The stamps of a frame, the names of its columns, and their cells.
pub(crate) struct Sheet {
    pub(crate) stamps: &'static [i64],
    pub(crate) names: &'static [&'static str],
    pub(crate) columns: &'static [Cells],
}

/// These names of columns.
pub(crate) fn names_of(alloc: Global, texts: &[&str]) -> Result<Items<ColName>, Fail> {
    let mut names = Items::new(alloc);
    for text in texts {
        names.push(ColName::make(alloc, text)?)?;
    }
    Ok(names)
}

/// A column of these texts.
pub(crate) fn texts_of(alloc: Global, texts: &[&str]) -> Result<Column, Fail> {
    let mut list = TextList::new(alloc);
    for text in texts {
        list.push(text)?;
    }
    Ok(Column::Texts(list))
}

fn column_of(alloc: Global, cells: &Cells) -> Result<Column, Fail> {
    match cells {
        Cells::Ints(ints) => Ok(Column::Ints(Items::from_slice(alloc, ints)?)),
        Cells::Flags(flags) => Ok(Column::Flags(Items::from_slice(alloc, flags)?)),
        Cells::Texts(texts) => texts_of(alloc, texts),
    }
}

fn columns_of(alloc: Global, columns: &[Cells]) -> Result<Items<Column>, Fail> {
    let mut made = Items::new(alloc);
    for cells in columns {
        made.push(column_of(alloc, cells)?)?;
    }
    Ok(made)
}

/// These columns under names, at stamps.
pub(crate) fn raw_of(
    alloc: Global,
    stamps: &[i64],
    names: &[&str],
    columns: Items<Column>,
) -> Result<RawFrame, Fail> {
    let stamps = Items::from_slice(alloc, stamps)?;
    let names = names_of(alloc, names)?;
    Ok(RawFrame {
        stamps,
        names,
        columns,
    })
}

/// The columns of a sheet.
pub(crate) fn raw_sheet(alloc: Global, sheet: &Sheet) -> Result<RawFrame, Fail> {
    let columns = columns_of(alloc, sheet.columns)?;
    raw_of(alloc, sheet.stamps, sheet.names, columns)
}

/// The frame of a sheet.
pub(crate) fn frame_of(alloc: Global, sheet: &Sheet) -> Result<Frame, Fail>
    ensures { IfOk result IsStorable }
{
    let raw = raw_sheet(alloc, sheet)?;
    Ok(Frame::make(alloc, &raw)?)
}

/// The cell of a row at a column, where the frame has both.
pub(crate) fn cell_of(frame: &Frame, row: u64, column: u64) -> Option<CellRef<'_>> {
    if row < frame.rows() {
        if column < frame.schema().len() as u64 {
            return Some(frame.cell(row, column));
        }
    }
    None
}

/// Whether the frame has this number there.
pub(crate) fn has_int(frame: &Frame, row: u64, column: u64, number: i64) -> bool {
    matches!(cell_of(frame, row, column), Some(CellRef::Int(found)) if found == number)
}

/// Whether the frame has this text there.
pub(crate) fn has_text(frame: &Frame, row: u64, column: u64, text: &str) -> bool {
    matches!(cell_of(frame, row, column), Some(CellRef::Text(found)) if found == text)
}

/// Whether the frame has this flag there.
pub(crate) fn has_flag(frame: &Frame, row: u64, column: u64, flag: bool) -> bool {
    matches!(cell_of(frame, row, column), Some(CellRef::Flag(found)) if found == flag)
}

/// Whether the frame has these stamps.
pub(crate) fn has_stamps(frame: &Frame, stamps: &[i64]) -> bool {
    frame.stamps() == stamps
}
