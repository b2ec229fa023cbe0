//! The objects of a target's version.

ghost use Rattle.std.specs.Prelude.{◌≡◌, true, Some, IfOk, IfErr};
ghost use Rattle.std.specs.Arc.{arc_value};
ghost use Rattle.index_tree.specs.IndexRules.{IsIndex};
ghost use Rattle.bucket_core.specs.History.{body_put};
ghost use Rattle.bucket_core.specs.Laws.{Looks};
ghost use Rattle.bucket_core.specs.Calls.{IsSteady};
ghost use Rattle.store_model.specs.Law.{IsClaimed};
ghost use Rattle.store_model.specs.Links.{links};
ghost use Rattle.store_model.specs.Holders.{has_index};
ghost use Rattle.frame_read.specs.Fetches.{Reaches, RefusesGet, LacksKey, IsReached, IsIndexKey, IsTargetIndex};

use crate::resolving::out_of_memory;
use crate::target::Target;
use bucket_core::{Body, Bucket, StoreErr};
use frame_core::{Refusal, Refused};
use index_tree::{Index, PackedIndex, open, read};
use key_kind::Key;
use std::alloc::Global;
use std::sync::{Arc, Wait};
use version_chain::StoreLaw;

/// The index of the target's version, by one look. It may wait for the store.
pub fn index_of<R: Wait, B: Bucket<StoreLaw>>(
    rt: &R,
    alloc: Global,
    bucket: &mut B,
    target: &Target,
) -> Result<Index, Refused>
    requires linked { has_index (links (B.seen bucket.old) target.now.symbol) target.now.version target.now.index ≡ true }
    ensures looks { Looks IsClaimed (B.number bucket.old) (B.sole bucket.old) (B.seen bucket.old) (B.seen bucket.new) }
    ensures steady { IsSteady B.number B.limit B.faults B.sole bucket.old bucket.new }
    ensures index { IfOk result (IsTargetIndex (B.seen bucket.new) target.now) }
    ensures rules { IfOk result IsIndex }
    // The version is gone only where it is buried and not held, and the key of its index is gone.
    ensures refused { IfErr result (RefusesGet (B.faults bucket.old) (B.faults bucket.new) (B.seen bucket.old) (B.seen bucket.new) target.now.symbol target.now.version) }
    ensures lacks { IfErr result (LacksKey (B.seen bucket.new) target.now IsIndexKey) }
{
    let body = get_reached(rt, bucket, target, &target.index)?;
    // What was put as an index is always read, so only memory can be wanting.
    match read(alloc, body.bytes()) {
        Ok(index) => Ok(index),
        Err(_) => Err(out_of_memory(bucket.place())),
    }
}

/// The index of the target's version with its slots as they are spelled, by one look. It may wait for the store.
///
/// What was put under the key of an index spells one, so no slot is read or copied.
pub fn packed_index_of<R: Wait, B: Bucket<StoreLaw>>(
    rt: &R,
    alloc: Global,
    bucket: &mut B,
    target: &Target,
) -> Result<PackedIndex, Refused>
    requires linked { has_index (links (B.seen bucket.old) target.now.symbol) target.now.version target.now.index ≡ true }
    ensures looks { Looks IsClaimed (B.number bucket.old) (B.sole bucket.old) (B.seen bucket.old) (B.seen bucket.new) }
    ensures steady { IsSteady B.number B.limit B.faults B.sole bucket.old bucket.new }
    ensures index { IfOk result (IsTargetIndex (B.seen bucket.new) target.now) }
    ensures rules { IfOk result IsIndex }
    // The version is gone only where it is buried and not held, and the key of its index is gone.
    ensures refused { IfErr result (RefusesGet (B.faults bucket.old) (B.faults bucket.new) (B.seen bucket.old) (B.seen bucket.new) target.now.symbol target.now.version) }
    ensures lacks { IfErr result (LacksKey (B.seen bucket.new) target.now IsIndexKey) }
{
    let body = get_reached(rt, bucket, target, &target.index)?;
    match open(alloc, &body) {
        Ok(index) => Ok(index),
        Err(_) => Err(out_of_memory(bucket.place())),
    }
}

/// The body under a key that a link of the target's version reaches, shared and not copied.
pub(crate) fn get_reached<R: Wait, B: Bucket<StoreLaw>>(
    rt: &R,
    bucket: &mut B,
    target: &Target,
    key: &Key,
) -> Result<Arc<Body>, Refused>
    requires reached { Reaches (B.seen bucket.old) target.now.symbol target.now.version key.now }
    ensures looks { Looks IsClaimed (B.number bucket.old) (B.sole bucket.old) (B.seen bucket.old) (B.seen bucket.new) }
    ensures steady { IsSteady B.number B.limit B.faults B.sole bucket.old bucket.new }
    ensures body { IfOk result (λ body. body_put (B.seen bucket.new) key.now ≡ Some (arc_value body)) }
    ensures refused { IfErr result (RefusesGet (B.faults bucket.old) (B.faults bucket.new) (B.seen bucket.old) (B.seen bucket.new) target.now.symbol target.now.version) }
    ensures lacks { (r : Reaches (B.seen bucket.old) target.now.symbol target.now.version key.now) → IfErr result (LacksKey (B.seen bucket.new) target.now (IsReached r.link key.now)) }
{
    let place = bucket.place();
    match bucket.get(rt, key) {
        Ok(found) => match found.body {
            Some(body) => Ok(body),
            None => Err(Refused {
                place: found.place,
                why: Refusal::VersionGone {
                    version: target.version,
                },
            }),
        },
        Err(StoreErr::Fault) => Err(Refused {
            place,
            why: Refusal::StoreFault,
        }),
        Err(_) => Err(out_of_memory(place)),
    }
}
