//! A group, over a frame.

ghost use Rattle.std.specs.Prelude.{◌≡◌, ◌∷◌, []};
ghost use Rattle.frame_core.specs.Refusals.{Answers};
ghost use Rattle.expr_clause.specs.declared.clause.Clause.TheVariants as clauses;
ghost use Rattle.expr_clause.specs.Asking.{run_frame};
ghost use Rattle.row_clauses.specs.Plans.{AllFit};

use expr_clause::{Clause, Out, schema_after};
use frame_core::{ColName, Frame, Refusal};
use group_clause::Partial;
use std::alloc::Global;

/// How many rows a partial group may take. A frame of more is not in memory.
const MOST_ROWS: u64 = 1 << 62;

/// What a group of this number, with this key and these outputs, makes of a frame.
pub(crate) fn run_group(
    alloc: Global,
    number: u64,
    clause: &Clause,
    key: &ColName,
    outs: &[Out],
    frame: &Frame,
) -> Result<Frame, Refusal>
    requires is { clause.now ≡ clauses.Group key.now outs.now }
    requires fit { AllFit (clause.now ∷ []) frame.now.schema }
    ensures { Answers result (run_frame number (clause.now ∷ []) frame.now) }
{
    let Some(schema) = schema_after(alloc, clause, frame.schema())? else {
        unreachable!();
    };
    if frame.rows() > MOST_ROWS {
        return Err(Refusal::NoMemory);
    }
    let mut partial = Partial::make(alloc);
    partial.add_tile(alloc, frame, key, outs)?;
    partial.finish(alloc, number, &schema, outs)
}
