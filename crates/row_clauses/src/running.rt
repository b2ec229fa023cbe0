//! Clauses without a group, over a frame.

ghost use Rattle.std.specs.Prelude.{◌≡◌, ◌+◌, ◌<◌, ◌^◌, [], length, true, OnOk};
ghost use Rattle.frame_core.specs.Refusals.{Answers};
ghost use Rattle.frame_core.specs.Selecting.{then_map};
ghost use Rattle.expr_clause.specs.Asking.{pass, pass_rows, run_frame};
ghost use Rattle.row_clauses.specs.Plans.{AllFit, IsRun, is_plain};

use crate::passing::{Passed, pass_row};
use crate::plan::{Plan, planned};
use crate::row::add_row;
use expr_clause::Clause;
use frame_core::{CellRef, Frame, FrameMaker, Refusal};
use std::alloc::Global;

/// What clauses without a group, the first of which has this number, make of a frame, row by row.
pub(crate) fn run_rows(
    alloc: Global,
    first: u64,
    clauses: &[Clause],
    frame: &Frame,
) -> Result<Frame, Refusal>
    requires numbers { first + length clauses.now < 2 ^ 64 }
    requires fit { AllFit clauses.now frame.now.schema }
    requires plain { is_plain clauses.now ≡ true }
    ensures { Answers result (run_frame first clauses.now frame.now) }
{
    let plan = planned(alloc, clauses, frame.schema())?;
    rows_of(alloc, first, clauses, &plan, frame)
}

/// The frame of the rows that come through, or the least row's refusal.
fn rows_of(
    alloc: Global,
    first: u64,
    clauses: &[Clause],
    plan: &Plan,
    frame: &Frame,
) -> Result<Frame, Refusal>
    requires numbers { first + length clauses.now < 2 ^ 64 }
    requires way { IsRun clauses.now frame.now plan.now }
    ensures { Answers result (run_frame first clauses.now frame.now) }
{
    let mut out = FrameMaker::make(alloc, &plan.schema)?;
    rows_through(alloc, first, clauses, plan, frame, &mut out)?;
    Ok(out.done())
}

/// Adds the rows that come through to a frame without rows; or the least row with a result outside i64 refuses, at its first
/// failing clause.
fn rows_through(
    alloc: Global,
    first: u64,
    clauses: &[Clause],
    plan: &Plan,
    frame: &Frame,
    out: &mut FrameMaker,
) -> Result<(), Refusal>
    requires numbers { first + length clauses.now < 2 ^ 64 }
    requires way { IsRun clauses.now frame.now plan.now }
    requires new { out.old ≡ record { schema = plan.now.schema; rows = []; begun = [] } }
    ensures rows { Answers (then_map (λ done. out.new.rows) result) (pass_rows (pass first frame.now.schema clauses.now) 1 frame.now.rows) }
    ensures schema { OnOk result (out.new.schema ≡ out.old.schema) }
    ensures whole { OnOk result (out.new.begun ≡ []) }
{
    let mut made = Vec::with_capacity(alloc, clauses.len())?;
    let mut operands = Vec::new(alloc);
    each_row(first, clauses, plan, frame, &mut made, &mut operands, out)
}

/// The same, with memory for the cells that are computed and for those that an expression takes.
fn each_row<'a>(
    first: u64,
    clauses: &'a [Clause],
    plan: &Plan,
    frame: &'a Frame,
    made: &mut Vec<CellRef<'a>>,
    operands: &mut Vec<CellRef<'a>>,
    out: &mut FrameMaker,
) -> Result<(), Refusal>
    requires numbers { first + length clauses.now < 2 ^ 64 }
    requires way { IsRun clauses.now frame.now plan.now }
    requires new { out.old ≡ record { schema = plan.now.schema; rows = []; begun = [] } }
    ensures rows { Answers (then_map (λ done. out.new.rows) result) (pass_rows (pass first frame.now.schema clauses.now) 1 frame.now.rows) }
    ensures schema { OnOk result (out.new.schema ≡ out.old.schema) }
    ensures whole { OnOk result (out.new.begun ≡ []) }
{
    for row in 0..frame.rows() {
        let spots = plan.spots.items();
        match pass_row(first, clauses, spots, frame, row, made, operands)? {
            Passed::Through => add_row(frame, row, made, &plan.layout, out)?,
            Passed::Ended => {}
            Passed::Overflows(clause) => {
                return Err(Refusal::Overflow {
                    clause,
                    row: row + 1,
                });
            }
        }
    }
    Ok(())
}
