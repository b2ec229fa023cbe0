//! What is done with the cells of a row. Every match on a cell stands here.

ghost use Rattle.std.specs.Prelude.{◌≡◌, Some, option_map};
ghost use Rattle.frame_core.specs.declared.cell.Cell.TheVariants as cells;
ghost use Rattle.frame_core.specs.Frames.{cell_of};
ghost use Rattle.expr_clause.specs.Cells.{answered, cell_cmp, is_true, no_cell, number, rank, same_cell};
ghost use Rattle.expr_clause.specs.Exprs.{among_value, binary_value, literal_cell, unary_value};

use crate::expr::{BinOp, Literal, UnOp};
use frame_core::{Cell, CellRef};
use std::cmp::Ordering;

/// An arithmetic result is outside i64.
#[derive(Clone, Copy, Debug, PartialEq, Eq)]
pub struct Overflowed;

/// What an operator makes of a cell.
pub fn unary<'a>(op: UnOp, arg: CellRef<'a>) -> Result<CellRef<'a>, Overflowed>
    ensures { answered result ≡ unary_value op (cell_of arg.entry) }
{
    match op {
        UnOp::Neg => calculated(number_in(arg).checked_neg()),
        UnOp::Abs => calculated(number_in(arg).checked_abs()),
        UnOp::Not => Ok(CellRef::Flag(!flag_in(arg))),
    }
}

/// What an operator makes of two cells.
pub fn binary<'a>(op: BinOp, a: CellRef<'a>, b: CellRef<'a>) -> Result<CellRef<'a>, Overflowed>
    ensures { answered result ≡ binary_value op (cell_of a.entry) (cell_of b.entry) }
{
    match op {
        BinOp::Add => calculated(number_in(a).checked_add(number_in(b))),
        BinOp::Sub => calculated(number_in(a).checked_sub(number_in(b))),
        BinOp::Mul => calculated(number_in(a).checked_mul(number_in(b))),
        BinOp::Lt => Ok(CellRef::Flag(compare_cells(a, b).is_lt())),
        BinOp::Le => Ok(CellRef::Flag(compare_cells(a, b).is_le())),
        BinOp::Gt => Ok(CellRef::Flag(compare_cells(a, b).is_gt())),
        BinOp::Ge => Ok(CellRef::Flag(compare_cells(a, b).is_ge())),
        BinOp::Eq => Ok(CellRef::Flag(compare_cells(a, b).is_eq())),
        BinOp::Ne => Ok(CellRef::Flag(compare_cells(a, b).is_ne())),
        BinOp::And => Ok(CellRef::Flag(flag_in(a) & flag_in(b))),
        BinOp::Xor => Ok(CellRef::Flag(flag_in(a) != flag_in(b))),
        BinOp::Or => Ok(CellRef::Flag(flag_in(a) | flag_in(b))),
    }
}

/// Whether a cell is one of the literals, or, negated, none of them.
pub fn among<'a>(
    cell: CellRef<'a>,
    list: &[Literal],
    negated: bool,
) -> Result<CellRef<'a>, Overflowed>
    ensures { answered result ≡ among_value list.now negated (cell_of cell.entry) }
{
    let mut found = false;
    for literal in list {
        let same = is_literal(cell, literal);
        found = found || same;
    }
    Ok(CellRef::Flag(negated != found))
}

/// The order of two cells: by number, false before true, texts by bytes.
pub fn compare_cells(a: CellRef<'_>, b: CellRef<'_>) -> Ordering
    ensures { result ≡ cell_cmp (cell_of a.entry) (cell_of b.entry) }
{
    match (a, b) {
        (CellRef::Int(m), CellRef::Int(n)) => m.cmp(&n),
        (CellRef::Flag(m), CellRef::Flag(n)) => m.cmp(&n),
        (CellRef::Text(m), CellRef::Text(n)) => m.cmp(n),
        (CellRef::Stamp(m), CellRef::Stamp(n)) => m.cmp(&n),
        _ => rank_of(a).cmp(&rank_of(b)),
    }
}

/// The cell, lent.
pub fn lent(cell: &Cell) -> CellRef<'_>
    ensures { cell_of result ≡ cell.now }
{
    match cell {
        Cell::Int(n) => CellRef::Int(*n),
        Cell::Flag(b) => CellRef::Flag(*b),
        Cell::Text(t) => CellRef::Text(t.text()),
        Cell::Stamp(n) => CellRef::Stamp(*n),
    }
}

/// What stands for the cell of a column that is not there.
pub fn absent_cell<'a>() -> CellRef<'a>
    ensures { cell_of result ≡ no_cell }
{
    CellRef::Int(0)
}

/// The place of a cell's type in the order.
fn rank_of(cell: CellRef<'_>) -> u8
    ensures { result ≡ rank (cell_of cell.entry) }
{
    match cell {
        CellRef::Int(_) => 0,
        CellRef::Flag(_) => 1,
        CellRef::Text(_) => 2,
        CellRef::Stamp(_) => 3,
    }
}

/// The whole number in a cell.
fn number_in(cell: CellRef<'_>) -> i64
    ensures { result ≡ number (cell_of cell.entry) }
{
    match cell {
        CellRef::Int(n) => n,
        CellRef::Flag(_) | CellRef::Text(_) | CellRef::Stamp(_) => 0,
    }
}

/// The flag in a cell.
pub fn flag_in(cell: CellRef<'_>) -> bool
    ensures { result ≡ is_true (cell_of cell.entry) }
{
    match cell {
        CellRef::Flag(flag) => flag,
        CellRef::Int(_) | CellRef::Text(_) | CellRef::Stamp(_) => false,
    }
}

/// A result of arithmetic as a cell.
fn calculated<'a>(number: Option<i64>) -> Result<CellRef<'a>, Overflowed>
    ensures { answered result ≡ option_map cells.Int number }
{
    match number {
        Some(n) => Ok(CellRef::Int(n)),
        None => Err(Overflowed),
    }
}

/// Whether a cell is the literal.
fn is_literal(cell: CellRef<'_>, literal: &Literal) -> bool
    ensures { result ≡ same_cell (cell_of cell.entry) (literal_cell literal.now) }
{
    let other = match literal {
        Literal::Int(n) => CellRef::Int(*n),
        Literal::Flag(b) => CellRef::Flag(*b),
        Literal::Text(t) => CellRef::Text(t.text()),
        Literal::Moment(t) => CellRef::Stamp(*t),
    };
    compare_cells(cell, other).is_eq()
}
