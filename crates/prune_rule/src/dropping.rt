//! Keys that nobody needs are dropped.

ghost use Rattle.std.specs.List.{AllByRecursion};
ghost use Rattle.std.specs.List.Sorted.{IsStrictlySortedBy};
ghost use Rattle.key_kind.specs.Keys.{key_cmp};
ghost use Rattle.bucket_core.specs.Calls.{IsSteady};
ghost use Rattle.prune_rule.specs.DropCalls.{IsDroppable, DidDrop, DidDrops};

use crate::memory::out_of_memory;
use base_types::{Items, NoMemory};
use bucket_core::{Bucket, Dropped};
use frame_core::Refused;
use key_kind::Key;
use std::alloc::Global;
use std::collections::BTreeSet;
use std::sync::Wait;
use version_chain::{StoreLaw, refused_by};

/// Drops a key that nobody needs, and notes it where it was there.
fn drop_one<R: Wait, B: Bucket<StoreLaw>>(
    rt: &R,
    bucket: &mut B,
    key: Key,
    freed: &mut Items<Key>,
) -> Result<(), Refused>
    requires dead { IsDroppable (B.seen bucket.old) key }
    ensures steady { IsSteady B.number B.limit B.faults B.sole bucket.old bucket.new }
    ensures did { DidDrop (B.number bucket.old) (B.sole bucket.old) (B.limit bucket.old) (B.faults bucket.old) (B.faults bucket.new) (B.seen bucket.old) (B.seen bucket.new) key freed.old freed.new result }
{
    let place = bucket.place();
    match bucket.drop_key(rt, &key) {
        Ok(Dropped::Gone { place }) => match freed.push(key) {
            Ok(()) => Ok(()),
            Err(NoMemory) => Err(out_of_memory(place)),
        },
        Ok(Dropped::Absent { .. }) => Ok(()),
        Err(err) => Err(refused_by(place, err)),
    }
}

/// Drops the keys of a set in their order, and tells which were there. It may wait for the store.
///
/// The memory for the answer is taken before the first drop. After a failure of the store no further call is made.
pub(crate) fn drop_all<R: Wait, B: Bucket<StoreLaw>>(
    rt: &R,
    alloc: Global,
    bucket: &mut B,
    dead: BTreeSet<Key>,
) -> Result<Items<Key>, Refused>
    requires dead { AllByRecursion (IsDroppable (B.seen bucket.old)) dead.keys }
    ensures steady { IsSteady B.number B.limit B.faults B.sole bucket.old bucket.new }
    ensures rising { IsStrictlySortedBy key_cmp dead.keys }
    ensures did { DidDrops (B.number bucket.old) (B.sole bucket.old) (B.limit bucket.old) (B.faults bucket.old) (B.faults bucket.new) (B.seen bucket.old) (B.seen bucket.new) dead.keys result }
{
    let Ok(mut freed) = Items::with_capacity(alloc, dead.len()) else {
        return Err(out_of_memory(bucket.place()));
    };
    let mut rest = dead;
    while let Some(key) = rest.pop_first() {
        drop_one(rt, bucket, key, &mut freed)?;
    }
    Ok(freed)
}
