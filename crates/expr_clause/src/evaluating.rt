//! The value of an expression on a row.

ghost use Rattle.std.specs.Prelude.{◌≡◌, List};
ghost use Rattle.frame_core.specs.declared.cell.Cell.{Cell};
ghost use Rattle.frame_core.specs.Schemas.{Head};
ghost use Rattle.frame_core.specs.Frames.{cell_of};
ghost use Rattle.expr_clause.specs.Cells.{answered};
ghost use Rattle.expr_clause.specs.Exprs.{cell_named, value};

use crate::cells::{Overflowed, among, binary, unary};
use crate::expr::Expr;
use frame_core::{CellRef, ColName};

/// A row, seen as its columns and its cells.
pub trait RowCells {
    /// The names and types of the row's columns.
    ghost columns: { Self → List Head };

    /// The cells of the row, one for each column.
    ghost cells: { Self → List Cell };

    /// The cell in the column of this name, lent.
    fn named(&self, name: &ColName) -> CellRef<'_>
        ensures { cell_of result ≡ cell_named (columns self.now) (cells self.now) name.now };
}

/// The value of an expression on a row, or `Overflowed` where an arithmetic result is outside i64. It takes no memory, and its
/// calls go as deep as the expression: 32 where its clause `fits`.
#[tactic(auto, using(crate::proofs::Levels::at_int, crate::proofs::Levels::at_flag, crate::proofs::Levels::at_text, crate::proofs::Levels::at_moment, crate::proofs::Levels::at_col, crate::proofs::Levels::at_unary, crate::proofs::Levels::at_binary, crate::proofs::Levels::at_among))]
pub fn eval_row<'a, R: RowCells>(expr: &'a Expr, row: &'a R) -> Result<CellRef<'a>, Overflowed>
    ensures { answered result ≡ value (R.columns row.now) (R.cells row.now) expr.now }
{
    match expr {
        Expr::Int(n) => Ok(CellRef::Int(*n)),
        Expr::Flag(b) => Ok(CellRef::Flag(*b)),
        Expr::Text(t) => Ok(CellRef::Text(t.text())),
        Expr::Moment(t) => Ok(CellRef::Stamp(*t)),
        Expr::Col(name) => Ok(row.named(name)),
        Expr::Unary { op, arg } => match eval_row(arg.get(), row) {
            Ok(x) => unary(*op, x),
            Err(e) => Err(e),
        },
        Expr::Binary { op, left, right } => match eval_row(left.get(), row) {
            Ok(x) => match eval_row(right.get(), row) {
                Ok(y) => binary(*op, x, y),
                Err(e) => Err(e),
            },
            Err(e) => Err(e),
        },
        Expr::Among { arg, list, negated } => match eval_row(arg.get(), row) {
            Ok(x) => among(x, list.items(), *negated),
            Err(e) => Err(e),
        },
    }
}
