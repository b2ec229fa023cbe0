//! Which keys the links of a symbol reach.

ghost use Rattle.std.specs.Prelude.{◌≡◌, ◌||◌, ◌&&◌, true, not, IfOk, IfErr, OnOk};
ghost use Rattle.std.specs.List.{list_any, AllByRecursion};
ghost use Rattle.key_kind.specs.declared.key.Key.{Key as Named};
ghost use Rattle.key_kind.specs.declared.key.KeyKind.TheVariants.{TableIndex};
ghost use Rattle.key_kind.specs.Keys.{same_key};
ghost use Rattle.bucket_core.specs.Laws.{Looks};
ghost use Rattle.bucket_core.specs.Calls.{IsSteady};
ghost use Rattle.store_model.specs.Law.{IsClaimed};
ghost use Rattle.version_chain.specs.States.{RefusesWalk};
ghost use Rattle.prune_rule.specs.DeadKeys.{has_key, reached_keys, IsFoundIndex, IsIndexPut, DidReach, Reaches};

use crate::memory::out_of_memory;
use base_types::{Items, NoMemory};
use bucket_core::Bucket;
use frame_core::Refused;
use index_tree::{Index, read};
use key_kind::Key;
use std::alloc::Global;
use std::collections::BTreeSet;
use std::sync::Wait;
use store_model::LinkRow;
use version_chain::{StoreLaw, refused_by};

/// The keys that the links of some rows reach.
#[derive(Drop)]
pub(crate) struct Reached {
    pub keys: BTreeSet<Key>,
    /// Whether the index of a row is gone.
    pub gone: bool,
}

/// The keys that the links of these rows reach, but for those that are kept: their indexes, by one look each, and the tiles that
/// these name. A row whose index is gone adds none.
pub(crate) fn reach<R: Wait, B: Bucket<StoreLaw>>(
    rt: &R,
    alloc: Global,
    bucket: &mut B,
    rows: Items<LinkRow>,
    kept: &BTreeSet<Key>,
) -> Result<Reached, Refused>
    requires put { AllByRecursion (IsIndexPut (B.seen bucket.old)) rows }
    ensures looks { Looks IsClaimed (B.number bucket.old) (B.sole bucket.old) (B.seen bucket.old) (B.seen bucket.new) }
    ensures steady { IsSteady B.number B.limit B.faults B.sole bucket.old bucket.new }
    ensures reached { IfOk result (Reaches (B.seen bucket.old) (B.seen bucket.new) rows kept.now) }
    ensures refused { IfErr result (RefusesWalk (B.faults bucket.old) (B.faults bucket.new) (B.seen bucket.old) (B.seen bucket.new)) }
{
    let mut reached = Reached {
        keys: BTreeSet::new(alloc),
        gone: false,
    };
    let mut rest = rows.into_vec();
    while let Some(row) = rest.pop() {
        reach_row(rt, alloc, bucket, row, kept, &mut reached)?;
    }
    Ok(reached)
}

/// Adds the keys that the link of a row reaches, but for those that are kept.
fn reach_row<R: Wait, B: Bucket<StoreLaw>>(
    rt: &R,
    alloc: Global,
    bucket: &mut B,
    row: LinkRow,
    kept: &BTreeSet<Key>,
    reached: &mut Reached,
) -> Result<(), Refused>
    requires put { IsIndexPut (B.seen bucket.old) row }
    ensures looks { Looks IsClaimed (B.number bucket.old) (B.sole bucket.old) (B.seen bucket.old) (B.seen bucket.new) }
    ensures steady { IsSteady B.number B.limit B.faults B.sole bucket.old bucket.new }
    ensures reached { OnOk result (DidReach (B.seen bucket.new) row kept.now reached.old reached.new) }
    ensures refused { IfErr result (RefusesWalk (B.faults bucket.old) (B.faults bucket.new) (B.seen bucket.old) (B.seen bucket.new)) }
{
    match read_index(rt, alloc, bucket, &row.index)? {
        None => {
            reached.gone = true;
            Ok(())
        }
        Some(index) => match note_reached(&mut reached.keys, kept, row.index, index) {
            Ok(()) => Ok(()),
            Err(NoMemory) => Err(out_of_memory(bucket.place())),
        },
    }
}

/// The index under a key, if it is there, by one look.
fn read_index<R: Wait, B: Bucket<StoreLaw>>(
    rt: &R,
    alloc: Global,
    bucket: &mut B,
    key: &Key,
) -> Result<Option<Index>, Refused>
    requires kind { key.now.kind ≡ TableIndex }
    ensures looks { Looks IsClaimed (B.number bucket.old) (B.sole bucket.old) (B.seen bucket.old) (B.seen bucket.new) }
    ensures steady { IsSteady B.number B.limit B.faults B.sole bucket.old bucket.new }
    ensures found { IfOk result (IsFoundIndex (B.seen bucket.new) key.now) }
    ensures refused { IfErr result (RefusesWalk (B.faults bucket.old) (B.faults bucket.new) (B.seen bucket.old) (B.seen bucket.new)) }
{
    let place = bucket.place();
    let found = match bucket.get(rt, key) {
        Ok(found) => found,
        Err(err) => return Err(refused_by(place, err)),
    };
    match found.body {
        None => Ok(None),
        // What was put as an index is always read, so only memory can be wanting.
        Some(body) => match read(alloc, body.bytes()) {
            Ok(index) => Ok(Some(index)),
            Err(_) => Err(out_of_memory(bucket.place())),
        },
    }
}

/// Puts the key of an index and those of its tiles into a set, but for those that are kept.
fn note_reached(
    keys: &mut BTreeSet<Key>,
    kept: &BTreeSet<Key>,
    key: Key,
    index: Index,
) -> Result<(), NoMemory>
    ensures { OnOk result ((other : Named) → has_key keys.new other ≡ (has_key keys.old other || (list_any (λ k. same_key k other) (reached_keys key index) && not (has_key kept.now other)))) }
{
    note_unless(keys, kept, key)?;
    let mut rest = index.slots.into_vec();
    while let Some(slot) = rest.pop() {
        note_unless(keys, kept, slot.key)?;
    }
    Ok(())
}

/// Puts a key into a set, unless it is kept.
fn note_unless(keys: &mut BTreeSet<Key>, kept: &BTreeSet<Key>, key: Key) -> Result<(), NoMemory>
    ensures { OnOk result ((other : Named) → has_key keys.new other ≡ (has_key keys.old other || (same_key key other && not (has_key kept.now other)))) }
{
    if kept.contains(&key) {
        return Ok(());
    }
    keys.insert(key)?;
    Ok(())
}
