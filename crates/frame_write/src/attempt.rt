ghost use Rattle.std.specs.Prelude.{length};
ghost use Rattle.frame_core.specs.Limits.{IsStorable};
ghost use Rattle.bucket_core.specs.Calls.{IsSteady};
ghost use Rattle.frame_write.specs.Placing.{AreTilesOf};
ghost use Rattle.frame_write.specs.Tries.{DidTry};
ghost use Rattle.frame_write.specs.Writes.{IsWritten};

use crate::commit::commit;
use crate::options::{Committed, Options};
use crate::plan::plan_write;
use crate::tiles::Tile;
use bucket_core::Bucket;
use frame_core::{Frame, Refusal, Refused};
use key_kind::Symbol;
use std::alloc::Global;
use std::sync::Wait;
use version_chain::{StoreLaw, walk_tip};

/// One try to commit the frame.
pub(crate) fn attempt<R: Wait, B: Bucket<StoreLaw>>(
    rt: &R,
    alloc: Global,
    bucket: &mut B,
    symbol: &Symbol,
    frame: &Frame,
    tiles: &[Tile],
    options: &Options,
) -> Result<Committed, Refused>
    requires storable { IsStorable frame.now }
    requires tiles { AreTilesOf frame.now options.now.cutting tiles.now }
    ensures steady { IsSteady B.number B.limit B.faults B.sole bucket.old bucket.new }
    ensures did { DidTry (B.number bucket.old) (B.sole bucket.old) symbol.now (IsWritten symbol.now frame.now options.now) (B.limit bucket.old) (B.faults bucket.old) (B.faults bucket.new) (length (B.seen bucket.old)) (B.seen bucket.old) (B.seen bucket.new) result }
{
    let tip = walk_tip(rt, alloc, bucket, symbol, options.prune)?;
    let Ok(plan) = plan_write(
        alloc,
        bucket.client(),
        bucket.serial(),
        symbol,
        &tip,
        frame,
        tiles,
        options,
    ) else {
        return Err(Refused {
            place: bucket.place(),
            why: Refusal::NoMemory,
        });
    };
    commit(rt, alloc, bucket, symbol, plan)
}
