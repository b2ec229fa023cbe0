//! The version that a read takes, by a walk along the symbol's chain or by a snapshot.

ghost use Rattle.std.specs.Prelude.{◌≡◌, ℕ, false, find, option_copied, IfOk, IfErr, Err};
ghost use Rattle.key_kind.specs.Names.{Name, same_name};
ghost use Rattle.key_kind.specs.Keys.{snapshot_key};
ghost use Rattle.bucket_core.specs.History.{History};
ghost use Rattle.bucket_core.specs.Laws.{Looks};
ghost use Rattle.bucket_core.specs.Calls.{IsSteady, IsFound};
ghost use Rattle.store_model.specs.Law.{IsClaimed, IsLawful};
ghost use Rattle.store_model.specs.Snapshots.{library_of};
ghost use Rattle.version_chain.specs.States.{IsWithin};
ghost use Rattle.version_chain.specs.Tips.{IsTipOf};
ghost use Rattle.reply_model.specs.ReadAnswers.{read_version};
ghost use Rattle.frame_read.specs.Targets.{asked_as, IsChosen, IsTarget, RefusesResolve};

use crate::choosing::choose;
use crate::target::Target;
use base_types::{Keep, NoMemory};
use bucket_core::{Bucket, Found, StoreErr};
use expr_clause::AsOf;
use frame_core::{Asked, Refusal, Refused};
use key_kind::{Key, SnapName, Symbol};
use std::alloc::Global;
use std::sync::Wait;
use store_model::{LinkRow, SnapRow};
use version_chain::{ChainTip, StoreLaw, snap_read, walk, walk_tip};

/// The version that a read takes.
///
/// A version that is not asked by a snapshot is found by one walk along the symbol's chain, and the place is that of the look at its
/// reference; the walk for the newest live version ends at its link. One of a snapshot is found by one look at the snapshot, whose
/// place it is. It may wait for the store.
pub fn resolve<R: Wait, B: Bucket<StoreLaw>>(
    rt: &R,
    alloc: Global,
    bucket: &mut B,
    symbol: &Symbol,
    as_of: &AsOf,
) -> Result<Target, Refused>
    ensures looks { Looks IsClaimed (B.number bucket.old) (B.sole bucket.old) (B.seen bucket.old) (B.seen bucket.new) }
    ensures steady { IsSteady B.number B.limit B.faults B.sole bucket.old bucket.new }
    // The version is the one that is read in the library at the target's place, and there a link of it has the index.
    ensures target { IfOk result (IsTarget (B.seen bucket.old) (B.seen bucket.new) symbol.now as_of.now) }
    // Of no other version or name is there a refusal than where the library at its place has none.
    ensures refused { IfErr result (RefusesResolve (B.faults bucket.old) (B.faults bucket.new) (B.seen bucket.old) (B.seen bucket.new) symbol.now as_of.now) }
{
    match as_of {
        AsOf::Back(1) => by_tip(rt, alloc, bucket, symbol),
        AsOf::Back(back) => by_walk(rt, alloc, bucket, symbol, Asked::Back(*back)),
        AsOf::Number(number) => by_walk(rt, alloc, bucket, symbol, Asked::Number(*number)),
        AsOf::Moment(moment) => by_walk(rt, alloc, bucket, symbol, Asked::Moment(*moment)),
        AsOf::Snapshot(snap) => by_snapshot(rt, alloc, bucket, symbol, snap),
    }
}

/// The newest live version, by a walk along the symbol's chain that ends at its link.
fn by_tip<R: Wait, B: Bucket<StoreLaw>>(
    rt: &R,
    alloc: Global,
    bucket: &mut B,
    symbol: &Symbol,
) -> Result<Target, Refused>
    ensures looks { Looks IsClaimed (B.number bucket.old) (B.sole bucket.old) (B.seen bucket.old) (B.seen bucket.new) }
    ensures steady { IsSteady B.number B.limit B.faults B.sole bucket.old bucket.new }
    ensures target { IfOk result (IsTarget (B.seen bucket.old) (B.seen bucket.new) symbol.now (AsOf.Back 1)) }
    ensures refused { IfErr result (RefusesResolve (B.faults bucket.old) (B.faults bucket.new) (B.seen bucket.old) (B.seen bucket.new) symbol.now (AsOf.Back 1)) }
{
    let tip = walk_tip(rt, alloc, bucket, symbol, false)?;
    match newest_of(&tip) {
        Ok(row) => target(alloc, symbol, row.version, &row.index, tip.place),
        Err(why) => Err(Refused {
            place: tip.place,
            why,
        }),
    }
}

/// The link of the newest live version, where the tip is that of a symbol in a lawful history.
fn newest_of(tip: &ChainTip) -> Result<&LinkRow, Refusal>
    ensures chosen { (h : History) (symbol : Name) → ∥ IsLawful h ∥₁ → IsTipOf h symbol false tip.now → IfOk result (λ row. IsChosen h symbol (AsOf.Back 1) row.now.version row.now.index) }
    ensures refused { (h : History) (symbol : Name) → ∥ IsLawful h ∥₁ → IsTipOf h symbol false tip.now → IfErr result (λ why. read_version (library_of h) symbol (AsOf.Back 1) ≡ Err why) }
{
    if tip.was.is_none() {
        return Err(Refusal::NoSuchSymbol);
    }
    match &tip.newest {
        Some(row) => Ok(row),
        None => Err(Refusal::NoSuchVersion {
            asked: Asked::Back(1),
        }),
    }
}

/// The version that is asked, by one walk along the symbol's chain.
fn by_walk<R: Wait, B: Bucket<StoreLaw>>(
    rt: &R,
    alloc: Global,
    bucket: &mut B,
    symbol: &Symbol,
    asked: Asked,
) -> Result<Target, Refused>
    ensures looks { Looks IsClaimed (B.number bucket.old) (B.sole bucket.old) (B.seen bucket.old) (B.seen bucket.new) }
    ensures steady { IsSteady B.number B.limit B.faults B.sole bucket.old bucket.new }
    ensures target { IfOk result (IsTarget (B.seen bucket.old) (B.seen bucket.new) symbol.now (asked_as asked)) }
    ensures refused { IfErr result (RefusesResolve (B.faults bucket.old) (B.faults bucket.new) (B.seen bucket.old) (B.seen bucket.new) symbol.now (asked_as asked)) }
{
    let state = walk(rt, alloc, bucket, symbol)?;
    match choose(&state, asked) {
        Ok(row) => target(alloc, symbol, row.version, &row.index, state.place),
        Err(why) => Err(Refused {
            place: state.place,
            why,
        }),
    }
}

/// The version that a snapshot has of the symbol, by one look at the snapshot.
fn by_snapshot<R: Wait, B: Bucket<StoreLaw>>(
    rt: &R,
    alloc: Global,
    bucket: &mut B,
    symbol: &Symbol,
    snap: &SnapName,
) -> Result<Target, Refused>
    ensures looks { Looks IsClaimed (B.number bucket.old) (B.sole bucket.old) (B.seen bucket.old) (B.seen bucket.new) }
    ensures steady { IsSteady B.number B.limit B.faults B.sole bucket.old bucket.new }
    ensures target { IfOk result (IsTarget (B.seen bucket.old) (B.seen bucket.new) symbol.now (AsOf.Snapshot snap.now)) }
    ensures refused { IfErr result (RefusesResolve (B.faults bucket.old) (B.faults bucket.new) (B.seen bucket.old) (B.seen bucket.new) symbol.now (AsOf.Snapshot snap.now)) }
{
    let place = bucket.place();
    let key = match Key::snapshot(alloc, snap) {
        Ok(key) => key,
        Err(NoMemory) => return Err(out_of_memory(place)),
    };
    match bucket.get(rt, &key) {
        Ok(found) => in_snapshot(alloc, symbol, found),
        Err(StoreErr::Fault) => Err(Refused {
            place,
            why: Refusal::StoreFault,
        }),
        Err(_) => Err(out_of_memory(place)),
    }
}

/// The version that a snapshot has of the symbol, where this was found under its key.
fn in_snapshot(alloc: Global, symbol: &Symbol, found: Found) -> Result<Target, Refused>
    ensures target { (old new : History) (snap : Name) → ∥ IsLawful new ∥₁ → IsWithin old new found.place → IsFound new (snapshot_key snap) found → IfOk result (IsTarget old new symbol.now (AsOf.Snapshot snap)) }
    ensures refused { (before now : ℕ) (old new : History) (snap : Name) → ∥ IsLawful new ∥₁ → IsWithin old new found.place → IsFound new (snapshot_key snap) found → IfErr result (RefusesResolve before now old new symbol.now (AsOf.Snapshot snap)) }
{
    let place = found.place;
    let Some(body) = found.body else {
        return Err(Refused {
            place,
            why: Refusal::NoSuchSnapshot,
        });
    };
    // What stands under a snapshot's key is always read, so only memory can be wanting.
    let Ok(snapshot) = snap_read(alloc, body.bytes()) else {
        return Err(out_of_memory(place));
    };
    match row_of(snapshot.rows.items(), symbol) {
        Some(row) => target(alloc, symbol, row.version, &row.index, place),
        None => Err(Refused {
            place,
            why: Refusal::NoSuchSymbol,
        }),
    }
}

/// The row of a symbol.
fn row_of<'a>(rows: &'a [SnapRow], symbol: &Symbol) -> Option<&'a SnapRow>
    ensures { option_copied result ≡ find (λ row. same_name symbol.now row.symbol) rows.now }
{
    rows.iter().find(|row| *symbol.name() == *row.symbol.name())
}

/// The target of a version, with copies of the symbol and the key.
fn target(
    alloc: Global,
    symbol: &Symbol,
    version: u64,
    index: &Key,
    place: u64,
) -> Result<Target, Refused>
    ensures target { IfOk result (λ made. made ≡ record { symbol = symbol.now; version = version; index = index.now; place = place }) }
    ensures refused { IfErr result (λ refused. refused ≡ record { place = place; why = Refusal.NoMemory }) }
{
    match (symbol.copy(alloc), index.copy(alloc)) {
        (Ok(symbol), Ok(index)) => Ok(Target {
            symbol,
            version,
            index,
            place,
        }),
        _ => Err(out_of_memory(place)),
    }
}

/// Want of memory, at a place.
pub(crate) fn out_of_memory(place: u64) -> Refused
    ensures { result ≡ record { place = place; why = Refusal.NoMemory } }
{
    Refused {
        place,
        why: Refusal::NoMemory,
    }
}
