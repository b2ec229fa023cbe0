//! The keys of staged pieces that are consumed.

ghost use Rattle.std.specs.Prelude.{◌≡◌, ◌||◌, IfOk, IfErr, OnOk};
ghost use Rattle.std.specs.List.{list_any};
ghost use Rattle.bucket_core.specs.declared.event.PieceName.{PieceName as Named};
ghost use Rattle.bucket_core.specs.Laws.{Looks};
ghost use Rattle.bucket_core.specs.Calls.{IsSteady};
ghost use Rattle.store_model.specs.Law.{IsClaimed};
ghost use Rattle.store_model.specs.Library.{same_piece};
ghost use Rattle.version_chain.specs.States.{RefusesWalk};
ghost use Rattle.prune_rule.specs.DeadKeys.{has_piece, NotesPiece, NotesPieces, NotesStaged};

use crate::memory::out_of_memory;
use base_types::{Items, NoMemory};
use bucket_core::{Bucket, PieceName};
use frame_core::Refused;
use key_kind::{Key, KeyKind, Symbol};
use std::alloc::Global;
use std::collections::BTreeSet;
use std::sync::Wait;
use version_chain::{StoreLaw, refused_by};

/// Puts the stored keys of the symbol's consumed pieces into a set, by one look where any is consumed.
pub(crate) fn add_pieces<R: Wait, B: Bucket<StoreLaw>>(
    rt: &R,
    alloc: Global,
    bucket: &mut B,
    symbol: &Symbol,
    consumed: &[PieceName],
    keys: &mut BTreeSet<Key>,
) -> Result<(), Refused>
    ensures looks { Looks IsClaimed (B.number bucket.old) (B.sole bucket.old) (B.seen bucket.old) (B.seen bucket.new) }
    ensures steady { IsSteady B.number B.limit B.faults B.sole bucket.old bucket.new }
    ensures noted { OnOk result (NotesStaged (B.seen bucket.new) symbol.now consumed.now keys.old keys.new) }
    ensures refused { IfErr result (RefusesWalk (B.faults bucket.old) (B.faults bucket.new) (B.seen bucket.old) (B.seen bucket.new)) }
{
    if consumed.is_empty() {
        return Ok(());
    }
    let place = bucket.place();
    let listed = match bucket.list(rt, Some(KeyKind::Staged), Some(symbol.name())) {
        Ok(listed) => listed,
        Err(err) => return Err(refused_by(place, err)),
    };
    match note_pieces(alloc, listed.keys, consumed, keys) {
        Ok(()) => Ok(()),
        Err(NoMemory) => Err(out_of_memory(bucket.place())),
    }
}

/// Puts those of these keys into a set whose pieces are consumed.
fn note_pieces(
    alloc: Global,
    listed: Items<Key>,
    consumed: &[PieceName],
    keys: &mut BTreeSet<Key>,
) -> Result<(), NoMemory>
    ensures { OnOk result (NotesPieces listed consumed.now keys.old keys.new) }
{
    let names = piece_set(alloc, consumed)?;
    let mut rest = listed.into_vec();
    while let Some(key) = rest.pop() {
        note_piece(keys, &names, key)?;
    }
    Ok(())
}

/// Puts a key into a set where its piece is among these.
fn note_piece(
    keys: &mut BTreeSet<Key>,
    names: &BTreeSet<(u32, u64)>,
    key: Key,
) -> Result<(), NoMemory>
    ensures { OnOk result (NotesPiece key names.now keys.old keys.new) }
{
    if names.contains(&(key.client, key.serial)) {
        keys.insert(key)?;
        return Ok(());
    }
    Ok(())
}

/// A set of the names of these pieces.
fn piece_set(alloc: Global, pieces: &[PieceName]) -> Result<BTreeSet<(u32, u64)>, NoMemory>
    ensures { IfOk result (λ set. (name : Named) → has_piece set name ≡ list_any (same_piece name) pieces.now) }
{
    let mut set = BTreeSet::new(alloc);
    for place in (0..pieces.len()).rev() {
        note_name(&mut set, pieces[place])?;
    }
    Ok(set)
}

/// Puts the name of a piece into a set.
fn note_name(set: &mut BTreeSet<(u32, u64)>, piece: PieceName) -> Result<(), NoMemory>
    ensures { OnOk result ((name : Named) → has_piece set.new name ≡ (same_piece name piece || has_piece set.old name)) }
{
    set.insert((piece.client, piece.serial))?;
    Ok(())
}
