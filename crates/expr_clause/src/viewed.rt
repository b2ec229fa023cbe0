//! The value of an expression on a row of a viewed segment.

ghost use Rattle.std.specs.Prelude.{◌≡◌, ◌<◌, [], length, unwrap_or};
ghost use Rattle.frame_core.specs.Frames.{cell_of};
ghost use Rattle.frame_core.specs.Selecting.{place_of};
ghost use Rattle.frame_core.specs.Texts.{same_text};
ghost use Rattle.segment_bytes.specs.Views.{name_of};
ghost use Rattle.expr_clause.specs.Cells.{answered};
ghost use Rattle.expr_clause.specs.Exprs.{cell_named, value};
ghost use Rattle.expr_clause.specs.Viewed.{row_cells};

use crate::cells::{Overflowed, absent_cell, among, binary, unary};
use crate::expr::Expr;
use frame_core::{CellRef, ColName};
use segment_bytes::SegView;

/// The value of an expression on a row of a segment, counted from 0, or `Overflowed` where an arithmetic result is outside
/// i64. It takes no memory, and its calls go as deep as the expression: 32 where its clause `fits`.
#[tactic(auto, using(crate::proofs::Levels::at_int, crate::proofs::Levels::at_flag, crate::proofs::Levels::at_text, crate::proofs::Levels::at_moment, crate::proofs::Levels::at_col, crate::proofs::Levels::at_unary, crate::proofs::Levels::at_binary, crate::proofs::Levels::at_among))]
pub fn eval<'a>(expr: &'a Expr, view: &'a SegView<'a>, row: u64) -> Result<CellRef<'a>, Overflowed>
    requires { row < length view.now.rows }
    ensures { answered result ≡ value view.now.schema.columns (row_cells view.now row) expr.now }
{
    match expr {
        Expr::Int(n) => Ok(CellRef::Int(*n)),
        Expr::Flag(b) => Ok(CellRef::Flag(*b)),
        Expr::Text(t) => Ok(CellRef::Text(t.text())),
        Expr::Moment(t) => Ok(CellRef::Stamp(*t)),
        Expr::Col(name) => Ok(cell_in(view, row, name)),
        Expr::Unary { op, arg } => match eval(arg.get(), view, row) {
            Ok(x) => unary(*op, x),
            Err(e) => Err(e),
        },
        Expr::Binary { op, left, right } => match eval(left.get(), view, row) {
            Ok(x) => match eval(right.get(), view, row) {
                Ok(y) => binary(*op, x, y),
                Err(e) => Err(e),
            },
            Err(e) => Err(e),
        },
        Expr::Among { arg, list, negated } => match eval(arg.get(), view, row) {
            Ok(x) => among(x, list.items(), *negated),
            Err(e) => Err(e),
        },
    }
}

/// The cell of a row in the column of this name.
fn cell_in<'a>(view: &'a SegView<'a>, row: u64, name: &ColName) -> CellRef<'a>
    requires { row < length view.now.rows }
    ensures { cell_of result ≡ cell_named view.now.schema.columns (row_cells view.now row) name.now }
{
    match place_in(view, name) {
        Some(place) => view.cell(place, row),
        None => absent_cell(),
    }
}

/// The place of the column of this name in a segment, counted from 0.
fn place_in(view: &SegView<'_>, name: &ColName) -> Option<u64>
    ensures { result ≡ place_of name.now view.now.schema.columns }
{
    for place in 0..view.cols() {
        if is_named(view, place, name) {
            return Some(place);
        }
    }
    None
}

/// Whether the column at a place has this name.
fn is_named(view: &SegView<'_>, place: u64, name: &ColName) -> bool
    requires { place < length view.now.schema.columns }
    ensures { result ≡ same_text name.now (unwrap_or (name_of view.now place) []) }
{
    name.text() == view.name(place)
}
