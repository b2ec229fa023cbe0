//! The newest live version, on which a new one is made.

ghost use Rattle.std.specs.Prelude.{◌≡◌, Bool, false, IfOk, IfErr, IfSome};
ghost use Rattle.std.specs.List.{list_any};
ghost use Rattle.bucket_core.specs.History.{history_at};
ghost use Rattle.bucket_core.specs.Laws.{Looks};
ghost use Rattle.bucket_core.specs.Calls.{IsSteady};
ghost use Rattle.store_model.specs.Library.{state_of, is_buried};
ghost use Rattle.store_model.specs.Law.{IsClaimed};
ghost use Rattle.version_chain.specs.Tips.{IsTipAt};
ghost use Rattle.frame_read.specs.Fetches.{IsTargetIndex};
ghost use Rattle.version_chain.specs.Marking.{own_refers};
ghost use Rattle.append_update.specs.Newest.{IsBase};
ghost use Rattle.append_update.specs.Looking.{RefusesMet, NoBase, RefusesBase};

use crate::packed_base::PackedBase;
use base_types::{Keep, NoMemory};
use bucket_core::{Bucket, StoreErr};
use frame_core::{Refusal, Refused};
use frame_read::{Target, packed_index_of};
use index_tree::Index;
use key_kind::{Key, Symbol};
use std::alloc::Global;
use std::sync::Wait;
use store_model::LinkRow;
use version_chain::{ChainTip, StoreLaw};

/// The newest live version of a walked symbol.
#[derive(Drop)]
pub(crate) struct Base {
    /// The version, with the key of its index.
    pub(crate) target: Target,
    /// Its index.
    pub(crate) index: Index,
}

/// The newest live version of a walked tip, by one look at its index; None where it has none. It may wait for the store.
///
/// Where a key of the version is gone, another client's commit has buried it since the walk; then the refusal is Moved, with the
/// place of the symbol's newest commit.
pub(crate) fn base_of<R: Wait, B: Bucket<StoreLaw>>(
    rt: &R,
    alloc: Global,
    bucket: &mut B,
    symbol: &Symbol,
    tip: &ChainTip,
) -> Result<Option<PackedBase>, Refused>
    requires walked { (prune : Bool) × (at : IsTipAt (B.seen bucket.old) symbol.now prune tip.now) × (list_any (own_refers (B.number bucket.old) symbol.now) at.later ≡ false) }
    ensures looks { Looks IsClaimed (B.number bucket.old) (B.sole bucket.old) (B.seen bucket.old) (B.seen bucket.new) }
    ensures steady { IsSteady B.number B.limit B.faults B.sole bucket.old bucket.new }
    ensures base { IfOk result (IsBase (history_at (B.seen bucket.old) tip.now.place) symbol.now) }
    ensures target { IfOk result (λ base. IfSome base (λ it. IsTargetIndex (B.seen bucket.new) it.target it.index)) }
    ensures symbol { IfOk result (λ base. IfSome base (λ it. it.target.symbol ≡ symbol.now)) }
    ensures place { IfOk result (λ base. IfSome base (λ it. it.target.place ≡ tip.now.place)) }
    ensures live { IfOk result (λ base. IfSome base (λ it. is_buried (state_of (history_at (B.seen bucket.old) tip.now.place) symbol.now) it.target.version ≡ false)) }
    ensures refused { IfErr result (RefusesBase (B.number bucket.old) symbol.now NoBase tip.now.place (B.faults bucket.old) (B.faults bucket.new) (B.seen bucket.old) (B.seen bucket.new)) }
{
    let Some(row) = &tip.newest else {
        return Ok(None);
    };
    let Ok(target) = target_of(alloc, symbol, row, tip.place) else {
        return Err(out_of_memory(bucket.place()));
    };
    match packed_index_of(rt, alloc, bucket, &target) {
        Ok(index) => Ok(Some(PackedBase { target, index })),
        Err(refused) => match refused.why {
            Refusal::VersionGone { .. } => Err(met_commit(rt, alloc, bucket, symbol)),
            _ => Err(refused),
        },
    }
}

/// A link as a target of reads.
fn target_of(alloc: Global, symbol: &Symbol, row: &LinkRow, place: u64) -> Result<Target, NoMemory>
    ensures { IfOk result (λ made. made ≡ record { symbol = symbol.now; version = row.now.version; index = row.now.index; place = place }) }
{
    Ok(Target {
        symbol: symbol.copy(alloc)?,
        version: row.version,
        index: row.index.copy(alloc)?,
        place,
    })
}

/// The refusal of a try that was met: Moved, with the place of the symbol's newest commit. It may wait for the store.
pub(crate) fn met_commit<R: Wait, B: Bucket<StoreLaw>>(
    rt: &R,
    alloc: Global,
    bucket: &mut B,
    symbol: &Symbol,
) -> Refused
    ensures looks { Looks IsClaimed (B.number bucket.old) (B.sole bucket.old) (B.seen bucket.old) (B.seen bucket.new) }
    ensures steady { IsSteady B.number B.limit B.faults B.sole bucket.old bucket.new }
    ensures refused { RefusesMet (B.faults bucket.old) (B.faults bucket.new) (B.seen bucket.old) (B.seen bucket.new) symbol.now result }
{
    let place = bucket.place();
    let Ok(key) = Key::reference(alloc, symbol) else {
        return out_of_memory(place);
    };
    match bucket.get(rt, &key) {
        Ok(found) => Refused {
            place: found.since,
            why: Refusal::Moved { now: found.since },
        },
        Err(StoreErr::Fault) => Refused {
            place,
            why: Refusal::StoreFault,
        },
        Err(_) => out_of_memory(place),
    }
}

/// Want of memory, at a place.
pub(crate) fn out_of_memory(place: u64) -> Refused
    ensures { result ≡ record { place = place; why = Refusal.NoMemory } }
{
    Refused {
        place,
        why: Refusal::NoMemory,
    }
}
