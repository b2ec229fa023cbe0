//! The cells of a row on its way: those of the frame's row, and behind them the computed ones.

ghost use Rattle.std.specs.Prelude.{◌≡◌, ◌<◌, ◌++◌, ◌∷◌, [], List, ℕ, length, map, option_map, pos, false, not, Some, IfOk, OnOk};
ghost use Rattle.frame_core.specs.Schemas.{Head};
ghost use Rattle.frame_core.specs.Ranges.{InOrder, is_above, is_below, is_within};
ghost use Rattle.frame_core.specs.Frames.{cell_of, last_stamp, stamp_at};
ghost use Rattle.expr_clause.specs.Exprs.{columns_of, value};
ghost use Rattle.row_clauses.specs.Lying.{AreTyped, cell_in, cells_at, lying, operand, row_lying, spot};

use base_types::NoMemory;
use expr_clause::{Expr, absent_cell, eval_cells};
use frame_core::{CellRef, Frame, FrameMaker, Range};

/// The cell at a place.
pub(crate) fn cell_in<'a>(
    frame: &'a Frame,
    row: u64,
    made: &[CellRef<'a>],
    place: usize,
) -> CellRef<'a>
    requires { row < length frame.now.rows }
    ensures { cell_of result ≡ cell_in (cells_at frame.now row made.now) place }
{
    let width = frame.schema().len();
    if place < width {
        return frame.cell(row, place as u64);
    }
    made_cell(made, place - width)
}

/// The computed cell at a place.
#[tactic(auto, using(crate::proofs::RowCells::get_lent))]
fn made_cell<'a>(made: &[CellRef<'a>], place: usize) -> CellRef<'a>
    ensures { cell_of result ≡ cell_in (map cell_of made.now) place }
{
    match made.get(place) {
        Some(cell) => *cell,
        None => absent_cell(),
    }
}

/// The cell of a column that lies there.
fn operand<'a>(
    frame: &'a Frame,
    row: u64,
    made: &[CellRef<'a>],
    place: Option<usize>,
) -> CellRef<'a>
    requires { row < length frame.now.rows }
    ensures { cell_of result ≡ operand (cells_at frame.now row made.now) place }
{
    match place {
        Some(place) => cell_in(frame, row, made, place),
        None => absent_cell(),
    }
}

/// The value of an expression that finds its columns at these spots. None where an arithmetic result is outside i64.
pub(crate) fn value_on<'a>(
    expr: &'a Expr,
    spots: &[Option<usize>],
    frame: &'a Frame,
    row: u64,
    made: &[CellRef<'a>],
    operands: &mut Vec<CellRef<'a>>,
) -> Result<Option<CellRef<'a>>, NoMemory>
    requires { row < length frame.now.rows }
    ensures { IfOk result (λ found. (columns : List Head) (layout : List ℕ) → spots.now ≡ map (spot columns layout) (columns_of expr.now)
        → option_map cell_of found ≡ value columns (lying (cells_at frame.now row made.now) layout) expr.now) }
{
    find_operands(spots, frame, row, made, operands)?;
    match eval_cells(expr, operands) {
        Ok(cell) => Ok(Some(cell)),
        Err(_) => Ok(None),
    }
}

/// Puts the cells of the columns at these spots in the place of other operands.
fn find_operands<'a>(
    spots: &[Option<usize>],
    frame: &'a Frame,
    row: u64,
    made: &[CellRef<'a>],
    operands: &mut Vec<CellRef<'a>>,
) -> Result<(), NoMemory>
    requires { row < length frame.now.rows }
    ensures { OnOk result (map cell_of operands.new.items ≡ map (operand (cells_at frame.now row made.now)) spots.now) }
{
    operands.clear();
    for spot in spots {
        operands.push(operand(frame, row, made, *spot))?;
    }
    Ok(())
}

/// Adds the row to those of a frame, its columns lying at these places.
pub(crate) fn add_row<'a>(
    frame: &'a Frame,
    row: u64,
    made: &[CellRef<'a>],
    layout: &[usize],
    out: &mut FrameMaker,
) -> Result<(), NoMemory>
    requires row { row < length frame.now.rows }
    requires new { out.old.begun ≡ [] }
    requires typed { AreTyped out.old.schema.columns (lying (cells_at frame.now row made.now) layout.now) }
    requires rising { InOrder (last_stamp out.old.rows) (stamp_at frame.now row) }
    requires untimed { out.old.schema.timed ≡ false → stamp_at frame.now row ≡ Some (pos 0) }
    ensures { OnOk result (out.new ≡ record out.old { rows = out.old.rows ++ row_lying frame.now row made.now layout.now ∷ [] }) }
{
    for place in layout {
        out.cell(cell_in(frame, row, made, *place))?;
    }
    out.end_row(frame.stamp(row))
}

/// Whether a stamp lies in the range.
pub(crate) fn is_within(range: Range, stamp: i64) -> bool
    ensures { result ≡ is_within range stamp }
{
    is_not_below(range, stamp) && is_not_above(range, stamp)
}

fn is_not_below(range: Range, stamp: i64) -> bool
    ensures { result ≡ not (is_below range stamp) }
{
    match range.from() {
        Some(from) => from <= stamp,
        None => true,
    }
}

fn is_not_above(range: Range, stamp: i64) -> bool
    ensures { result ≡ not (is_above range stamp) }
{
    match range.to() {
        Some(to) => stamp <= to,
        None => true,
    }
}
