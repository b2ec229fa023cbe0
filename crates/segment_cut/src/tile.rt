//! What is cut from a frame.

ghost use Rattle.std.specs.Prelude.{◌≡◌, ◌+◌, ◌^◌, ◌<◌, ◌≤◌, length, map, slice_range, IfOk};
ghost use Rattle.frame_core.specs.Schemas.{Head};
ghost use Rattle.frame_core.specs.Frames.{IsFrame};
ghost use Rattle.frame_core.specs.Columns.{column_type, column_cells, columns_from};
ghost use Rattle.segment_cut.specs.Tiles.{LiesIn, cut as part_of};

use base_types::{Items, Keep, NoMemory};
use frame_core::{Column, Frame, Part, Schema};
use std::alloc::Global;

/// The rows and columns of a part of a frame, with their stamps, in memory of their own.
pub fn cut(alloc: Global, frame: &Frame, part: Part) -> Result<Frame, NoMemory>
    requires { LiesIn frame.now part }
    ensures { IfOk result (λ tile. tile ≡ part_of frame.now part) }
{
    let (rows, cols) = (frame.rows(), frame.schema().len() as u64);
    prove!(part.first_row + part.rows <= rows);
    prove!(part.first_col + part.cols <= cols);
    let from = part.first_row as usize;
    let to = from + part.rows as usize;
    let schema = schema_part(alloc, frame.schema(), part)?;
    let stamps = Items::from_slice(alloc, &frame.stamps()[from..to])?;
    let columns = column_parts(alloc, frame, part)?;
    Ok(Frame::from_columns(schema, stamps, columns))
}

/// The columns of a part of a frame of this schema.
fn schema_part(alloc: Global, schema: &Schema, part: Part) -> Result<Schema, NoMemory>
    requires within { part.first_col + part.cols ≤ length schema.now.columns }
    requires small { part.first_col + part.cols < 2 ^ 64 }
    ensures { IfOk result (λ cols. cols ≡ record schema.now { columns = slice_range schema.now.columns part.first_col (part.first_col + part.cols) }) }
{
    let from = part.first_col as usize;
    let to = from + part.cols as usize;
    let mut cols = Schema::empty(alloc, schema.timed());
    for (name, kind) in &schema.columns()[from..to] {
        cols.push(name.copy(alloc)?, *kind)?;
    }
    Ok(cols)
}

/// The cells of a part of a frame, column by column.
fn column_parts(alloc: Global, frame: &Frame, part: Part) -> Result<Items<Column>, NoMemory>
    requires frame { IsFrame frame.now }
    requires part { LiesIn frame.now part }
    requires small_rows { part.first_row + part.rows < 2 ^ 64 }
    requires small_cols { part.first_col + part.cols < 2 ^ 64 }
    ensures kinds { IfOk result (λ cols. map column_type cols ≡ map (λ (h : Head). h.1) (part_of frame.now part).schema.columns) }
    ensures cells { IfOk result (λ cols. map column_cells cols ≡ columns_from 0 part.cols (part_of frame.now part).rows) }
{
    let from = part.first_row as usize;
    let to = from + part.rows as usize;
    let mut cols = Items::with_capacity(alloc, part.cols as usize)?;
    for column in 0..part.cols {
        let cells = frame.column(part.first_col + column);
        cols.push(cells.part(alloc, from, to)?)?;
    }
    Ok(cols)
}
