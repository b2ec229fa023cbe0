//! What the clauses of a run make of a row.

ghost use Rattle.std.specs.Prelude.{◌≡◌, ◌+◌, ◌<◌, ◌^◌, length, IfOk, if◌then◌else◌};
ghost use Rattle.frame_core.specs.Texts.{Text};
ghost use Rattle.expr_clause.specs.declared.clause.Clause.TheVariants as clauses;
ghost use Rattle.row_clauses.specs.declared.passing.Step.TheVariants as steps;
ghost use Rattle.row_clauses.specs.Passing.{IsPassed, IsStepped};

use crate::row::{is_within, value_on};
use base_types::{Items, NoMemory};
use expr_clause::{Clause, Expr, flag_in};
use frame_core::{CellRef, Frame};

/// What a clause makes of a row.
#[derive(Clone, Copy)]
pub(crate) enum Step {
    GoesOn,
    Ends,
    /// An arithmetic result is outside i64.
    Overflows,
}

/// What a run makes of a row.
#[derive(Clone, Copy)]
pub(crate) enum Passed {
    Through,
    Ended,
    /// An arithmetic result is outside i64, first in the clause of this number.
    Overflows(u64),
}

/// What the clauses of a run, the first of which has this number, make of a row. The cells that they compute are in `made`.
pub(crate) fn pass_row<'a>(
    first: u64,
    clauses: &'a [Clause],
    spots: &[Items<Option<usize>>],
    frame: &'a Frame,
    row: u64,
    made: &mut Vec<CellRef<'a>>,
    operands: &mut Vec<CellRef<'a>>,
) -> Result<Passed, NoMemory>
    requires row { row < length frame.now.rows }
    requires numbers { first + length clauses.now < 2 ^ 64 }
    requires count { length spots.now ≡ length clauses.now }
    ensures { IfOk result (λ passed. IsPassed first clauses.now spots.now frame.now row made.new.items passed) }
{
    made.clear();
    for place in 0..clauses.len() {
        let spots = spots[place].items();
        match one_clause(&clauses[place], spots, frame, row, made, operands)? {
            Step::GoesOn => {}
            Step::Ends => return Ok(Passed::Ended),
            Step::Overflows => return Ok(Passed::Overflows(first + place as u64)),
        }
    }
    Ok(Passed::Through)
}

/// What a clause that finds its columns at these spots makes of a row. A cell that it computes goes behind the others.
fn one_clause<'a>(
    clause: &'a Clause,
    spots: &[Option<usize>],
    frame: &'a Frame,
    row: u64,
    made: &mut Vec<CellRef<'a>>,
    operands: &mut Vec<CellRef<'a>>,
) -> Result<Step, NoMemory>
    requires { row < length frame.now.rows }
    ensures { IfOk result (λ done. IsStepped clause.now spots.now frame.now row made.old.items made.new.items done) }
{
    match clause {
        Clause::DateRange(range) => Ok(kept(is_within(*range, frame.stamp(row)))),
        Clause::Filter(expr) => filtered(expr, spots, frame, row, made, operands),
        Clause::Apply { expr, .. } => applied(expr, spots, frame, row, made, operands),
        Clause::Group { .. } => Ok(Step::GoesOn),
    }
}

/// What a filter makes of a row.
fn filtered<'a>(
    expr: &'a Expr,
    spots: &[Option<usize>],
    frame: &'a Frame,
    row: u64,
    made: &[CellRef<'a>],
    operands: &mut Vec<CellRef<'a>>,
) -> Result<Step, NoMemory>
    requires { row < length frame.now.rows }
    ensures { IfOk result (λ done. IsStepped (clauses.Filter expr.now) spots.now frame.now row made.now made.now done) }
{
    match value_on(expr, spots, frame, row, made, operands)? {
        Some(cell) => Ok(kept(flag_in(cell))),
        None => Ok(Step::Overflows),
    }
}

/// What a computed column makes of a row, whatever its name.
fn applied<'a>(
    expr: &'a Expr,
    spots: &[Option<usize>],
    frame: &'a Frame,
    row: u64,
    made: &mut Vec<CellRef<'a>>,
    operands: &mut Vec<CellRef<'a>>,
) -> Result<Step, NoMemory>
    requires { row < length frame.now.rows }
    ensures { IfOk result (λ done. (name : Text) → IsStepped (clauses.Apply name expr.now) spots.now frame.now row made.old.items made.new.items done) }
{
    match value_on(expr, spots, frame, row, made, operands)? {
        Some(cell) => {
            made.push(cell)?;
            Ok(Step::GoesOn)
        }
        None => Ok(Step::Overflows),
    }
}

/// A row goes on, or ends.
fn kept(keep: bool) -> Step
    ensures { result ≡ (if keep then steps.GoesOn else steps.Ends) }
{
    if keep { Step::GoesOn } else { Step::Ends }
}
