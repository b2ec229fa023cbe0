//! The dead keys of a symbol are found, before any is dropped.

ghost use Rattle.std.specs.Prelude.{◌≡◌, ◌≤◌, IfOk, IfErr};
ghost use Rattle.std.specs.List.{AllByRecursion};
ghost use Rattle.bucket_core.specs.History.{referred_at};
ghost use Rattle.bucket_core.specs.Laws.{Looks};
ghost use Rattle.bucket_core.specs.Calls.{IsSteady};
ghost use Rattle.store_model.specs.Law.{IsClaimed};
ghost use Rattle.version_chain.specs.States.{RefusesWalk};
ghost use Rattle.prune_rule.specs.DeadKeys.{IsIndexPut, NotesStaged, IsPartOf, IsParted, ReachesDead, FoundDead};
ghost use Rattle.prune_rule.specs.Finding.{RefusesFinding, DidLook, RefusesDead};

use crate::memory::out_of_memory;
use crate::parting::{Rows, part_rows};
use crate::piece_keys::add_pieces;
use crate::reaching::reach;
use base_types::{Items, NoMemory};
use bucket_core::{Bucket, PieceName};
use frame_core::{Refusal, Refused};
use key_kind::{Key, Symbol};
use std::alloc::Global;
use std::collections::BTreeSet;
use std::sync::Wait;
use version_chain::{StoreLaw, SymbolState, refused_by, walk};

/// Keys that nobody needs.
#[derive(Drop)]
pub(crate) struct Dead {
    /// In key order: tiles, then indexes, then staged pieces.
    pub keys: BTreeSet<Key>,
    /// The place of the look at the symbol's reference.
    pub place: u64,
}

/// What is needed of a walked state to find dead keys.
#[derive(Drop)]
pub(crate) struct Parted {
    pub rows: Rows,
    /// The consumed pieces.
    pub consumed: Items<PieceName>,
    /// The place of the look at the symbol's reference.
    pub place: u64,
}

/// How a try to find dead keys ended.
#[derive(Drop)]
pub(crate) enum Looked {
    Found(Dead),
    /// Another client's commit of this place came between.
    Met(u64),
}

/// The dead keys of a symbol, in at most so many tries. It may wait for the store.
pub(crate) fn find_dead<R: Wait, B: Bucket<StoreLaw>>(
    rt: &R,
    alloc: Global,
    bucket: &mut B,
    symbol: &Symbol,
    tries: u32,
) -> Result<Dead, Refused>
    requires some_tries { 1 ≤ tries }
    ensures looks { Looks IsClaimed (B.number bucket.old) (B.sole bucket.old) (B.seen bucket.old) (B.seen bucket.new) }
    ensures steady { IsSteady B.number B.limit B.faults B.sole bucket.old bucket.new }
    ensures found { IfOk result (FoundDead (B.seen bucket.old) (B.seen bucket.new) symbol.now) }
    ensures refused { IfErr result (RefusesDead (B.number bucket.old) (B.sole bucket.old) symbol.now tries (B.faults bucket.old) (B.faults bucket.new) (B.seen bucket.old) (B.seen bucket.new)) }
{
    let mut met = 0;
    for _ in 0..tries {
        match look_once(rt, alloc, bucket, symbol)? {
            Looked::Found(dead) => return Ok(dead),
            Looked::Met(place) => met = place,
        }
    }
    Err(Refused {
        place: met,
        why: Refusal::Moved { now: met },
    })
}

/// One try to find the dead keys of a symbol: one walk, one look at each index, and one at the staged pieces where any is consumed.
///
/// Where an index of a live or held version is gone, another client's commit made that version neither live nor held.
fn look_once<R: Wait, B: Bucket<StoreLaw>>(
    rt: &R,
    alloc: Global,
    bucket: &mut B,
    symbol: &Symbol,
) -> Result<Looked, Refused>
    ensures looks { Looks IsClaimed (B.number bucket.old) (B.sole bucket.old) (B.seen bucket.old) (B.seen bucket.new) }
    ensures steady { IsSteady B.number B.limit B.faults B.sole bucket.old bucket.new }
    ensures did { DidLook (B.number bucket.old) symbol.now (B.faults bucket.old) (B.faults bucket.new) (B.seen bucket.old) (B.seen bucket.new) result }
{
    let Parted {
        rows,
        consumed,
        place,
    } = part_symbol(rt, alloc, bucket, symbol)?;
    let found = dead_keys(rt, alloc, bucket, rows)?;
    let Some(reached) = found else {
        return Ok(Looked::Met(referred_place(rt, alloc, bucket, symbol)?));
    };
    let keys = with_pieces(rt, alloc, bucket, symbol, reached, consumed)?;
    Ok(Looked::Found(Dead { keys, place }))
}

/// What a walk finds of a symbol that has a reference.
fn part_symbol<R: Wait, B: Bucket<StoreLaw>>(
    rt: &R,
    alloc: Global,
    bucket: &mut B,
    symbol: &Symbol,
) -> Result<Parted, Refused>
    ensures looks { Looks IsClaimed (B.number bucket.old) (B.sole bucket.old) (B.seen bucket.old) (B.seen bucket.new) }
    ensures steady { IsSteady B.number B.limit B.faults B.sole bucket.old bucket.new }
    ensures parted { IfOk result (IsParted (B.seen bucket.old) (B.seen bucket.new) symbol.now) }
    ensures refused { IfErr result (RefusesFinding (B.faults bucket.old) (B.faults bucket.new) (B.seen bucket.old) (B.seen bucket.new) symbol.now) }
{
    let state = walk(rt, alloc, bucket, symbol)?;
    if state.was.is_none() {
        return Err(Refused {
            place: state.place,
            why: Refusal::NoSuchSymbol,
        });
    }
    match part_state(alloc, state) {
        Ok(parted) => Ok(parted),
        Err(NoMemory) => Err(out_of_memory(bucket.place())),
    }
}

/// The parts of a walked state.
fn part_state(alloc: Global, state: SymbolState) -> Result<Parted, NoMemory>
    ensures { IfOk result (IsPartOf state) }
{
    let SymbolState {
        links,
        tombs,
        holds,
        consumed,
        place,
        ..
    } = state;
    let rows = part_rows(alloc, links, tombs.items(), holds.items())?;
    Ok(Parted {
        rows,
        consumed,
        place,
    })
}

/// The keys that only the links of versions reach which are neither live nor held. The keys of the others are found first; there are
/// none where an index of theirs is gone.
fn dead_keys<R: Wait, B: Bucket<StoreLaw>>(
    rt: &R,
    alloc: Global,
    bucket: &mut B,
    rows: Rows,
) -> Result<Option<BTreeSet<Key>>, Refused>
    requires kept_put { AllByRecursion (IsIndexPut (B.seen bucket.old)) rows.kept }
    requires dead_put { AllByRecursion (IsIndexPut (B.seen bucket.old)) rows.dead }
    ensures looks { Looks IsClaimed (B.number bucket.old) (B.sole bucket.old) (B.seen bucket.old) (B.seen bucket.new) }
    ensures steady { IsSteady B.number B.limit B.faults B.sole bucket.old bucket.new }
    ensures reached { IfOk result (ReachesDead (B.seen bucket.old) (B.seen bucket.new) rows) }
    ensures refused { IfErr result (RefusesWalk (B.faults bucket.old) (B.faults bucket.new) (B.seen bucket.old) (B.seen bucket.new)) }
{
    let none = BTreeSet::new(alloc);
    let kept = reach(rt, alloc, bucket, rows.kept, &none)?;
    if kept.gone {
        return Ok(None);
    }
    let dead = reach(rt, alloc, bucket, rows.dead, &kept.keys)?;
    Ok(Some(dead.keys))
}

/// These keys and those of the symbol's consumed pieces that are stored, by one look where any is consumed.
fn with_pieces<R: Wait, B: Bucket<StoreLaw>>(
    rt: &R,
    alloc: Global,
    bucket: &mut B,
    symbol: &Symbol,
    keys: BTreeSet<Key>,
    consumed: Items<PieceName>,
) -> Result<BTreeSet<Key>, Refused>
    ensures looks { Looks IsClaimed (B.number bucket.old) (B.sole bucket.old) (B.seen bucket.old) (B.seen bucket.new) }
    ensures steady { IsSteady B.number B.limit B.faults B.sole bucket.old bucket.new }
    ensures noted { IfOk result (NotesStaged (B.seen bucket.new) symbol.now consumed keys) }
    ensures refused { IfErr result (RefusesWalk (B.faults bucket.old) (B.faults bucket.new) (B.seen bucket.old) (B.seen bucket.new)) }
{
    let mut all = keys;
    add_pieces(rt, alloc, bucket, symbol, consumed.items(), &mut all)?;
    Ok(all)
}

/// The place of the event that set the symbol's reference, or 0, by one look.
fn referred_place<R: Wait, B: Bucket<StoreLaw>>(
    rt: &R,
    alloc: Global,
    bucket: &mut B,
    symbol: &Symbol,
) -> Result<u64, Refused>
    ensures looks { Looks IsClaimed (B.number bucket.old) (B.sole bucket.old) (B.seen bucket.old) (B.seen bucket.new) }
    ensures steady { IsSteady B.number B.limit B.faults B.sole bucket.old bucket.new }
    ensures place { IfOk result (λ place. place ≡ referred_at (B.seen bucket.new) symbol.now) }
    ensures refused { IfErr result (RefusesWalk (B.faults bucket.old) (B.faults bucket.new) (B.seen bucket.old) (B.seen bucket.new)) }
{
    let place = bucket.place();
    let Ok(key) = Key::reference(alloc, symbol) else {
        return Err(out_of_memory(place));
    };
    match bucket.get(rt, &key) {
        Ok(found) => Ok(found.since),
        Err(err) => Err(refused_by(place, err)),
    }
}
