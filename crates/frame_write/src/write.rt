ghost use Rattle.std.specs.Prelude.{◌≤◌, length, IfOk};
ghost use Rattle.frame_core.specs.Limits.{IsStorable};
ghost use Rattle.segment_cut.specs.Grids.{parts, grid_of};
ghost use Rattle.bucket_core.specs.Calls.{IsSteady};
ghost use Rattle.frame_write.specs.Placing.{AreTilesOf};
ghost use Rattle.frame_write.specs.Tries.{DidTries};
ghost use Rattle.version_chain.specs.Traces.{GoesOn};
ghost use Rattle.reply_model.specs.Standing.{GrowsAlone};
ghost use Rattle.frame_write.specs.Writes.{IsLegalWrite, IsWritten, Never, Always, Whole, StandsAlone, IsGridLinked};

use crate::attempt::attempt;
use crate::options::{Committed, Options};
use crate::tiles::{Tile, tiles_of};
use bucket_core::Bucket;
use frame_core::{Frame, Refusal, Refused};
use key_kind::Symbol;
use std::alloc::Global;
use std::sync::Wait;
use version_chain::StoreLaw;

/// Tries to commit the frame, until a try is not met by another client's commit, or all were.
fn try_all<R: Wait, B: Bucket<StoreLaw>>(
    rt: &R,
    alloc: Global,
    bucket: &mut B,
    symbol: &Symbol,
    frame: &Frame,
    tiles: &[Tile],
    options: &Options,
) -> Result<Committed, Refused>
    requires storable { IsStorable frame.now }
    requires tiles { AreTilesOf frame.now options.now.cutting tiles.now }
    requires some_tries { 1 ≤ options.now.tries }
    ensures steady { IsSteady B.number B.limit B.faults B.sole bucket.old bucket.new }
    ensures did { DidTries (B.number bucket.old) (B.sole bucket.old) symbol.now (IsWritten symbol.now frame.now options.now) Never Always Whole options.now.tries (B.limit bucket.old) (B.faults bucket.old) (B.faults bucket.new) (B.seen bucket.old) (B.seen bucket.new) result }
{
    let mut met = 0;
    for _ in 0..options.tries {
        let refused = match attempt(rt, alloc, bucket, symbol, frame, tiles, options) {
            Ok(committed) => return Ok(committed),
            Err(refused) => refused,
        };
        let Refusal::Moved { now } = refused.why else {
            return Err(refused);
        };
        met = now;
    }
    Err(Refused {
        place: met,
        why: Refusal::Moved { now: met },
    })
}

/// Writes the frame as a new version of the symbol, in at most so many tries. It may wait for the store.
///
/// Each try walks the symbol's chain, and then puts the tiles in the order of the index, the index, and an element, and sets
/// the reference. Where another client's commit came between, it drops these keys in the order of their puts. After the last
/// try the refusal is Moved, with the place of the commit that was met. After a failure of the store no further call is made.
pub fn write_link<R: Wait, B: Bucket<StoreLaw>>(
    rt: &R,
    alloc: Global,
    bucket: &mut B,
    symbol: &Symbol,
    frame: &Frame,
    options: &Options,
) -> Result<Committed, Refused>
    requires storable { IsStorable frame.now }
    requires some_tries { 1 ≤ options.now.tries }
    requires few_tries { options.now.tries ≤ 1000 }
    ensures steady { IsSteady B.number B.limit B.faults B.sole bucket.old bucket.new }
    ensures grown { GoesOn (B.number bucket.old) (B.sole bucket.old) (B.seen bucket.old) (B.seen bucket.new) }
    ensures legal { IsLegalWrite (B.limit bucket.old) (B.number bucket.old) options.now.tries symbol.now frame.now options.now.at options.now.prune (B.faults bucket.old) (B.faults bucket.new) (B.seen bucket.old) (B.seen bucket.new) result }
    // Where nobody else makes events, the place is known.
    ensures alone { GrowsAlone (B.number bucket.old) (B.seen bucket.old) (B.seen bucket.new) → IfOk result (StandsAlone (length (parts (grid_of frame.now options.now.cutting))) (B.seen bucket.old)) }
    // The newest link has the tiles of the frame's grid.
    ensures linked { IfOk result (λ done. IsGridLinked (B.seen bucket.new) symbol.now frame.now options.now.cutting) }
{
    let Ok(tiles) = tiles_of(alloc, frame, options.cutting) else {
        return Err(Refused {
            place: bucket.place(),
            why: Refusal::NoMemory,
        });
    };
    try_all(rt, alloc, bucket, symbol, frame, tiles.items(), options)
}
