ghost use Rattle.std.specs.Prelude.{◌≡◌, ◌+◌, ◌<◌, ◌≤◌, ◌^◌, length, drop, slice_range, true};
ghost use Rattle.frame_core.specs.Refusals.{Answers};
ghost use Rattle.expr_clause.specs.Asking.{apply_clauses, ends_run, run_all, run_frame, runs};
ghost use Rattle.expr_clause.specs.Fitting.{fits};
ghost use Rattle.row_clauses.specs.Plans.{AllFit, IsPart, IsTogether};

use crate::grouping::run_group;
use crate::running::run_rows;
use expr_clause::{Clause, check};
use frame_core::{Frame, Refusal};
use std::alloc::Global;

/// What the clauses make of a frame, in the order given.
///
/// The first clause that does not fit is refused before any row is looked at; then the least row with a result outside i64,
/// at its first failing clause, and the least group of which a sum is outside i64. Rows are numbered in the frame that the
/// last group gave, from 1.
pub fn apply_clauses(alloc: Global, frame: Frame, clauses: &[Clause]) -> Result<Frame, Refusal>
    requires { fits clauses.now ≡ true }
    ensures { Answers result (apply_clauses clauses.now frame) }
{
    let _ = check(alloc, clauses, frame.schema())?;
    all_parts(alloc, frame, clauses)
}

/// What clauses that fit make of a frame, up to each group and by the group in turn.
fn all_parts(alloc: Global, frame: Frame, clauses: &[Clause]) -> Result<Frame, Refusal>
    requires few { length clauses.now ≤ 16 }
    requires fit { AllFit clauses.now frame.schema }
    ensures { Answers result (run_all 1 (runs clauses.now) frame) }
{
    let mut frame = frame;
    let mut at = 0;
    while at < clauses.len() {
        let end = end_of_part(clauses, at);
        frame = part_of(alloc, at as u64 + 1, &clauses[at..end], &frame)?;
        at = end;
    }
    Ok(frame)
}

/// What clauses that go together, the first of which has this number, make of a frame.
fn part_of(alloc: Global, first: u64, part: &[Clause], frame: &Frame) -> Result<Frame, Refusal>
    requires numbers { first + length part.now < 2 ^ 64 }
    requires fit { AllFit part.now frame.now.schema }
    requires part { IsTogether part.now }
    ensures { Answers result (run_frame first part.now frame.now) }
{
    if let Clause::Group { key, outs } = &part[0] {
        run_group(alloc, first, &part[0], key, outs.items(), frame)
    } else {
        run_rows(alloc, first, part, frame)
    }
}

/// Where the clauses end that go together with the one at a place.
fn end_of_part(clauses: &[Clause], at: usize) -> usize
    requires { at < length clauses.now }
    ensures forward { at < result }
    ensures within { result ≤ length clauses.now }
    ensures part { IsPart (slice_range clauses.now at result) (drop result clauses.now) }
{
    if is_group(&clauses[at]) {
        return at + 1;
    }
    for place in at + 1..clauses.len() {
        if is_group(&clauses[place]) {
            return place;
        }
    }
    clauses.len()
}

/// Whether a clause is a group.
fn is_group(clause: &Clause) -> bool
    ensures { result ≡ ends_run clause.now }
{
    match clause {
        Clause::Group { .. } => true,
        Clause::DateRange(_) | Clause::Filter(_) | Clause::Apply { .. } => false,
    }
}
