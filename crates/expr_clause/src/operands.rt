//! The value of an expression of which the cells of its columns are given.

ghost use Rattle.std.specs.Prelude.{◌≡◌, ◌++◌, ◌∷◌, List, map, drop, OnOk};
ghost use Rattle.frame_core.specs.declared.cell.Cell.{Cell};
ghost use Rattle.frame_core.specs.Schemas.{Head};
ghost use Rattle.frame_core.specs.Frames.{cell_of};
ghost use Rattle.expr_clause.specs.Cells.{answered};
ghost use Rattle.expr_clause.specs.Exprs.{cell_named, columns_of, value};

use crate::cells::{Overflowed, absent_cell, among, binary, unary};
use crate::expr::Expr;
use frame_core::CellRef;

/// The value of an expression of which the columns have these cells, in the order in which it names them, or `Overflowed`
/// where an arithmetic result is outside i64. So names are looked up once for many rows, by `clause_names`.
///
/// It takes no memory, and its calls go as deep as the expression: 32 where its clause `fits`.
pub fn eval_cells<'a>(expr: &'a Expr, cells: &[CellRef<'a>]) -> Result<CellRef<'a>, Overflowed>
    ensures { (columns : List Head) (row : List Cell) → map cell_of cells.now ≡ map (cell_named columns row) (columns_of expr.now) → answered result ≡ value columns row expr.now }
{
    let mut next = 0;
    value_from(expr, cells, &mut next)
}

/// The value of an expression of which the columns have the next of these cells. They are then taken.
fn value_from<'a>(
    expr: &'a Expr,
    cells: &[CellRef<'a>],
    next: &mut usize,
) -> Result<CellRef<'a>, Overflowed>
    ensures { (columns : List Head) (row more : List Cell) → map cell_of (drop next.old cells.now) ≡ map (cell_named columns row) (columns_of expr.now) ++ more
        → (answered result ≡ value columns row expr.now) × OnOk result (map cell_of (drop next.new cells.now) ≡ more) }
{
    match expr {
        Expr::Int(n) => Ok(CellRef::Int(*n)),
        Expr::Flag(b) => Ok(CellRef::Flag(*b)),
        Expr::Text(t) => Ok(CellRef::Text(t.text())),
        Expr::Moment(t) => Ok(CellRef::Stamp(*t)),
        Expr::Col(_) => Ok(taken(cells, next)),
        Expr::Unary { op, arg } => match value_from(arg.get(), cells, next) {
            Ok(x) => unary(*op, x),
            Err(e) => Err(e),
        },
        Expr::Binary { op, left, right } => match value_from(left.get(), cells, next) {
            Ok(x) => match value_from(right.get(), cells, next) {
                Ok(y) => binary(*op, x, y),
                Err(e) => Err(e),
            },
            Err(e) => Err(e),
        },
        Expr::Among { arg, list, negated } => match value_from(arg.get(), cells, next) {
            Ok(x) => among(x, list.items(), *negated),
            Err(e) => Err(e),
        },
    }
}

/// The next of these cells.
fn taken<'a>(cells: &[CellRef<'a>], next: &mut usize) -> CellRef<'a>
    ensures { (cell : Cell) (more : List Cell) → map cell_of (drop next.old cells.now) ≡ cell ∷ more → (cell_of result ≡ cell) × (map cell_of (drop next.new cells.now) ≡ more) }
{
    match cells.get(*next) {
        Some(cell) => {
            *next += 1;
            *cell
        }
        None => absent_cell(),
    }
}
