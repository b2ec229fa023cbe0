//! The clauses of a read over the tiles that were fetched for it.
#![tactic(auto)]

ghost use Rattle.std.specs.Prelude.{◌≡◌, true};
ghost use Rattle.expr_clause.specs.Fitting.{fits};
ghost use Rattle.frame_read.specs.Gathers.{AreOfFrame};
ghost use Rattle.parallel_read.specs.Queries.{GivesQuery};

use expr_clause::{Clause, check};
use frame_core::{Frame, Refusal};
use frame_read::Tiles;
use row_clauses::apply_clauses;
use std::alloc::Global;

/// What a read with these clauses gives: the rows in the range and of these the asked columns, as the tiles have them, and of
/// them what the clauses make, in the order given.
///
/// The first clause that does not fit is refused before any tile is looked at; then the least row with a result outside i64,
/// at its first failing clause, and the least group of which a sum is outside i64. The tiles are copied into a frame first,
/// and one worker goes through it row by row.
pub fn run_clauses(alloc: Global, tiles: &Tiles, clauses: &[Clause]) -> Result<Frame, Refusal>
    requires frame { AreOfFrame tiles.now }
    requires fits { fits clauses.now ≡ true }
    ensures { GivesQuery tiles.now clauses.now result }
{
    let _ = check(alloc, clauses, &tiles.schema)?;
    let frame = tiles.to_frame(alloc)?;
    apply_clauses(alloc, frame, clauses)
}
