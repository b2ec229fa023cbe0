//! Keys of a symbol that nobody needs are dropped.

ghost use Rattle.std.specs.Prelude.{◌≡◌, ◌≤◌, length, IfOk};
ghost use Rattle.bucket_core.specs.Calls.{IsSteady};
ghost use Rattle.reply_model.specs.Standing.{GrowsAlone};
ghost use Rattle.version_chain.specs.Traces.{GoesOn};
ghost use Rattle.prune_rule.specs.Reclaims.{DropsThese, IsLegalReclaim};

use crate::dropping::drop_all;
use crate::finding::find_dead;
use base_types::Items;
use bucket_core::Bucket;
use frame_core::Refused;
use key_kind::{Key, Symbol};
use std::alloc::Global;
use std::sync::Wait;
use version_chain::StoreLaw;

/// Keys that were dropped. A place is a number of events.
#[derive(Drop)]
pub struct Freed {
    /// The keys of tiles, then those of indexes, then those of staged pieces, each in key order.
    pub keys: Items<Key>,
    /// The place of the last look at the symbol's reference.
    pub place: u64,
}

/// Drops the symbol's keys that nobody needs: the tiles and indexes of versions that are neither live nor held, where no other version
/// has them, and the staged pieces that are consumed. It may wait for the store.
///
/// All indexes that are needed are read before the first drop. Where the index of a live or held version is gone, another client was
/// at work, and the symbol is walked anew, in at most so many tries (1 to 1,000). A key that is gone when its turn comes is no drop
/// of this call. The refusals, in this order: NoSuchSymbol; Moved after the last try, with the place of the commit that was met.
/// After a failure of the store no further call is made.
pub fn reclaim<R: Wait, B: Bucket<StoreLaw>>(
    rt: &R,
    alloc: Global,
    bucket: &mut B,
    symbol: &Symbol,
    tries: u32,
) -> Result<Freed, Refused>
    requires some_tries { 1 ≤ tries }
    requires few_tries { tries ≤ 1000 }
    ensures steady { IsSteady B.number B.limit B.faults B.sole bucket.old bucket.new }
    ensures grown { GoesOn (B.number bucket.old) (B.sole bucket.old) (B.seen bucket.old) (B.seen bucket.new) }
    ensures dropped { IfOk result (λ freed. DropsThese (B.number bucket.old) (B.seen bucket.old) (B.seen bucket.new) freed.keys) }
    // Where nobody else makes events, it looked at the reference where it began.
    ensures looked { IfOk result (λ freed. GrowsAlone (B.number bucket.old) (B.seen bucket.old) (B.seen bucket.new) → freed.place ≡ length (B.seen bucket.old)) }
    ensures legal { IsLegalReclaim (B.limit bucket.old) (B.number bucket.old) tries symbol.now (B.faults bucket.old) (B.faults bucket.new) (B.seen bucket.old) (B.seen bucket.new) result }
{
    let dead = find_dead(rt, alloc, bucket, symbol, tries)?;
    let place = dead.place;
    let keys = drop_all(rt, alloc, bucket, dead.keys)?;
    Ok(Freed { keys, place })
}
