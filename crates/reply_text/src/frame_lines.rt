//! The lines of a frame, each added to the end of a line.

ghost use Rattle.std.specs.Prelude.{◌≡◌, ◌++◌, ◌<◌, length, map, slice_get, Some, IfOk, OnOk, codes};
ghost use Rattle.std.specs.Fmt.{signed_decimal};
ghost use Rattle.frame_core.specs.Frames.{Row, cell_of};
ghost use Rattle.frame_core.specs.Schemas.{Head};
ghost use Rattle.reply_text.specs.Commas.{further_fields};
ghost use Rattle.reply_text.specs.FrameText.{index_text, cell_text, record_text, header_fields, row_fields};

use crate::line::{push_comma, push_end, push_int, push_text};
use base_types::NoMemory;
use frame_core::{CellRef, Frame};
use std::alloc::Global;

/// Adds the field of a cell.
fn push_cell(line: &mut Vec<u8>, cell: CellRef<'_>) -> Result<(), NoMemory>
    ensures { OnOk result (line.new.items ≡ line.old.items ++ cell_text (cell_of cell.entry)) }
{
    match cell {
        CellRef::Int(number) => push_int(line, number),
        CellRef::Flag(true) => push_text(line, "True"),
        CellRef::Flag(false) => push_text(line, "False"),
        CellRef::Text(text) => push_text(line, text),
        CellRef::Stamp(moment) => push_int(line, moment),
    }
}

/// Adds the names of the columns. In a timed frame something stands before them.
fn push_names(line: &mut Vec<u8>, frame: &Frame) -> Result<(), NoMemory>
    ensures { OnOk result (line.new.items ≡ line.old.items ++ further_fields frame.now.schema.timed (map (λ (c : Head). c.0) frame.now.schema.columns)) }
{
    let timed = frame.schema().timed();
    for (place, head) in frame.schema().columns().iter().enumerate() {
        push_comma(line, timed, place)?;
        push_text(line, head.0.text())?;
    }
    Ok(())
}

/// Adds the cells of a row, counted from 0. In a timed frame something stands before them.
fn push_cells(line: &mut Vec<u8>, frame: &Frame, row: u64) -> Result<(), NoMemory>
    requires { row < length frame.now.rows }
    ensures { (r : Row) → slice_get frame.now.rows row ≡ Some r → OnOk result (line.new.items ≡ line.old.items ++ further_fields frame.now.schema.timed (map cell_text r.cells)) }
{
    let timed = frame.schema().timed();
    for column in 0..frame.schema().len() {
        push_comma(line, timed, column)?;
        push_cell(line, frame.cell(row, column as u64))?;
    }
    Ok(())
}

/// Adds the name of the index, where there is one.
fn push_index_name(line: &mut Vec<u8>, timed: bool) -> Result<(), NoMemory>
    ensures { OnOk result (line.new.items ≡ line.old.items ++ index_text timed (codes "time")) }
{
    if timed {
        push_text(line, "time")
    } else {
        Ok(())
    }
}

/// Adds the header.
fn push_header(line: &mut Vec<u8>, frame: &Frame) -> Result<(), NoMemory>
    ensures { OnOk result (line.new.items ≡ line.old.items ++ record_text (header_fields frame.now)) }
{
    push_index_name(line, frame.schema().timed())?;
    push_names(line, frame)?;
    push_end(line)
}

/// The header of a frame.
pub fn header_line(alloc: Global, frame: &Frame) -> Result<Vec<u8>, NoMemory>
    ensures { IfOk result (λ line. line.items ≡ record_text (header_fields frame.now)) }
{
    let mut line = Vec::new(alloc);
    push_header(&mut line, frame)?;
    Ok(line)
}

/// Adds the stamp of a row, counted from 0, where the frame is timed.
fn push_stamp(line: &mut Vec<u8>, frame: &Frame, row: u64) -> Result<(), NoMemory>
    requires { row < length frame.now.rows }
    ensures { (r : Row) → slice_get frame.now.rows row ≡ Some r → OnOk result (line.new.items ≡ line.old.items ++ index_text frame.now.schema.timed (signed_decimal r.stamp)) }
{
    if frame.schema().timed() {
        push_int(line, frame.stamp(row))
    } else {
        Ok(())
    }
}

/// Adds a row, counted from 0.
pub fn push_row(line: &mut Vec<u8>, frame: &Frame, row: u64) -> Result<(), NoMemory>
    requires { row < length frame.now.rows }
    ensures { (r : Row) → slice_get frame.now.rows row ≡ Some r → OnOk result (line.new.items ≡ line.old.items ++ record_text (row_fields frame.now.schema.timed r)) }
{
    push_stamp(line, frame, row)?;
    push_cells(line, frame, row)?;
    push_end(line)
}
