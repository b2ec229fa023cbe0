//! Commits of one change that makes no version: what is buried, held, released or consumed.

ghost use Rattle.std.specs.Prelude.{◌≡◌, false, ◌∷◌, [], map, IfOk, IfSome, OnOk, Ok};
ghost use Rattle.std.specs.Arc.{arc_value};
ghost use Rattle.bucket_core.specs.declared.event.Change.{Change as SeenChange};
ghost use Rattle.bucket_core.specs.Calls.{IsSteady, put_event, drop_event};
ghost use Rattle.key_kind.specs.Names.{IsName};
ghost use Rattle.key_kind.specs.KeyText.{key_text};
ghost use Rattle.store_model.specs.ChainText.{entry_of};
ghost use Rattle.store_model.specs.declared.chain.LinkRow.{LinkRow as Row};
ghost use Rattle.store_model.specs.declared.chain.ChainMark.TheVariants.{Tomb};
ghost use Rattle.store_model.specs.Commits.{is_version, change_marks, marks_of as all_marks};
ghost use Rattle.store_model.specs.Law.{MayPut};
ghost use Rattle.version_chain.specs.Entries.{IsEntry};
ghost use Rattle.version_chain.specs.Marking.{MayMark, DidMark, element_key};
ghost use Rattle.version_chain.specs.MarkPlans.{IsElementKey, IsFormed, IsMarking, IsOwnEntry, IsPrepared};
ghost use Rattle.version_chain.specs.Stops.{refused_by};
ghost use Rattle.version_chain.specs.StoreCalls.{DidCall, DidUndo};

use crate::elements::entry_bytes;
use crate::law::StoreLaw;
use crate::state::SymbolState;
use base_types::{Items, Keep, NoMemory};
use bucket_core::{Body, Bucket, Change, Changes, StoreErr};
use frame_core::{Refusal, Refused};
use key_kind::{Key, KeyKind, Symbol};
use std::alloc::Global;
use std::sync::{Arc, Wait};
use store_model::{ChainMark, Entry};

/// What a try puts and refers.
#[derive(Drop)]
struct Marking {
    /// The key of the element, for its Put.
    key: Key,
    /// The element.
    body: Arc<Body>,
    /// The same key, for the Refer and the Drop.
    entry: Key,
    /// The spelling of that key.
    mark: Arc<Body>,
    /// The change, for the Refer.
    changes: Arc<Changes>,
}

/// Tries once to commit one change that makes no version, over a walked state, and answers the place of its Refer. It may wait for
/// the store.
///
/// The element is built before its Put. Where another client referred the symbol since the state's place, the element is dropped
/// again and the refusal is Moved. After a failure of the store no further call is made.
pub fn mark_on<R: Wait, B: Bucket<StoreLaw>>(
    rt: &R,
    alloc: Global,
    bucket: &mut B,
    symbol: &Symbol,
    state: &SymbolState,
    change: &Change,
) -> Result<u64, Refused>
    requires may { MayMark (B.seen bucket.old) (B.number bucket.old) symbol.now state.now change.now }
    ensures steady { IsSteady B.number B.limit B.faults B.sole bucket.old bucket.new }
    ensures did { DidMark (B.number bucket.old) (B.sole bucket.old) symbol.now state.now.place change.now (B.limit bucket.old) (B.faults bucket.old) (B.faults bucket.new) (B.seen bucket.old) (B.seen bucket.new) result }
{
    let place = bucket.place();
    let Ok(marking) = prepare(
        alloc,
        bucket.client(),
        bucket.serial(),
        symbol,
        &state.was,
        change,
    ) else {
        return Err(Refused {
            place,
            why: Refusal::NoMemory,
        });
    };
    commit_mark(rt, bucket, symbol, state, marking)
}

/// Puts what is prepared, and then sets the symbol's reference. Where another's commit came between, the element is dropped again.
fn commit_mark<R: Wait, B: Bucket<StoreLaw>>(
    rt: &R,
    bucket: &mut B,
    symbol: &Symbol,
    state: &SymbolState,
    marking: Marking,
) -> Result<u64, Refused>
    requires prepared { (change : SeenChange) × IsPrepared (B.seen bucket.old) (B.number bucket.old) symbol.now state.now change marking }
    ensures steady { IsSteady B.number B.limit B.faults B.sole bucket.old bucket.new }
    ensures did { (change : SeenChange) → IsPrepared (B.seen bucket.old) (B.number bucket.old) symbol.now state.now change marking → DidMark (B.number bucket.old) (B.sole bucket.old) symbol.now state.now.place change (B.limit bucket.old) (B.faults bucket.old) (B.faults bucket.new) (B.seen bucket.old) (B.seen bucket.new) result }
{
    let Marking {
        key,
        body,
        entry,
        mark,
        changes,
    } = marking;
    put_element(rt, bucket, key, body)?;
    let place = bucket.place();
    let err = match bucket.refer(rt, symbol, state.was.as_ref(), &entry, mark, changes) {
        Ok(place) => return Ok(place),
        Err(err) => err,
    };
    let StoreErr::Moved { now } = err else {
        return Err(refused_by(place, err));
    };
    Err(undo(rt, bucket, &entry, now))
}

/// Drops the element of a try that was met by the commit of this place, and answers how the try ended.
fn undo<R: Wait, B: Bucket<StoreLaw>>(rt: &R, bucket: &mut B, entry: &Key, now: u64) -> Refused
    requires own { IsOwnEntry (B.seen bucket.old) (B.number bucket.old) entry.now }
    ensures steady { IsSteady B.number B.limit B.faults B.sole bucket.old bucket.new }
    ensures did { DidUndo (B.number bucket.old) (B.sole bucket.old) (B.limit bucket.old) (B.faults bucket.old) (B.faults bucket.new) (B.seen bucket.old) (B.seen bucket.new) (drop_event (B.number bucket.old) entry.now) now result }
{
    match drop_element(rt, bucket, entry) {
        Ok(()) => Refused {
            place: now,
            why: Refusal::Moved { now },
        },
        Err(refused) => refused,
    }
}

/// Puts an element.
fn put_element<R: Wait, B: Bucket<StoreLaw>>(
    rt: &R,
    bucket: &mut B,
    key: Key,
    body: Arc<Body>,
) -> Result<(), Refused>
    requires put { MayPut (B.seen bucket.old) (B.number bucket.old) key (arc_value body) }
    ensures steady { IsSteady B.number B.limit B.faults B.sole bucket.old bucket.new }
    ensures did { DidCall (B.number bucket.old) (B.sole bucket.old) (B.limit bucket.old) (B.faults bucket.old) (B.faults bucket.new) (B.seen bucket.old) (B.seen bucket.new) (put_event (B.number bucket.old) key (arc_value body)) result }
{
    let place = bucket.place();
    match bucket.put(rt, key, body) {
        Ok(_) => Ok(()),
        Err(err) => Err(refused_by(place, err)),
    }
}

/// Drops an element that nothing refers.
fn drop_element<R: Wait, B: Bucket<StoreLaw>>(
    rt: &R,
    bucket: &mut B,
    entry: &Key,
) -> Result<(), Refused>
    requires own { IsOwnEntry (B.seen bucket.old) (B.number bucket.old) entry.now }
    ensures steady { IsSteady B.number B.limit B.faults B.sole bucket.old bucket.new }
    ensures did { DidCall (B.number bucket.old) (B.sole bucket.old) (B.limit bucket.old) (B.faults bucket.old) (B.faults bucket.new) (B.seen bucket.old) (B.seen bucket.new) (drop_event (B.number bucket.old) entry.now) result }
{
    let place = bucket.place();
    match bucket.drop_key(rt, entry) {
        Ok(_) => Ok(()),
        Err(err) => Err(refused_by(place, err)),
    }
}

/// The element of a change under its key, which stands on `was`.
fn prepare(
    alloc: Global,
    client: u32,
    serial: u64,
    symbol: &Symbol,
    was: &Option<Key>,
    change: &Change,
) -> Result<Marking, NoMemory>
    requires was { IfSome was.now (IsElementKey symbol.now) }
    requires formed { IsFormed change.now }
    ensures { IfOk result (IsMarking client serial symbol.now was.now change.now) }
{
    let (entry, mark) = spelled_key(alloc, client, serial, symbol)?;
    let key = entry.copy(alloc)?;
    let (body, changes) = contents_of(alloc, was, change)?;
    Ok(Marking {
        key,
        body,
        entry,
        mark,
        changes,
    })
}

/// The key of an element, and its spelling.
fn spelled_key(
    alloc: Global,
    client: u32,
    serial: u64,
    symbol: &Symbol,
) -> Result<(Key, Arc<Body>), NoMemory>
    ensures key { IfOk result (λ x. x.0 ≡ element_key client symbol.now serial) }
    ensures mark { IfOk result (λ x. arc_value x.1 ≡ key_text x.0) }
    ensures is_name { OnOk result (IsName symbol.now) }
{
    let key = Key {
        kind: KeyKind::Version,
        name: symbol.name().copy(alloc)?,
        client,
        serial,
        version: 0,
        first: 0,
        last: 0,
    };
    let mark = Arc::new(alloc, Body::make(key.bytes(alloc)?))?;
    Ok((key, mark))
}

/// The element of a change, and the change, for its Refer.
fn contents_of(
    alloc: Global,
    was: &Option<Key>,
    change: &Change,
) -> Result<(Arc<Body>, Arc<Changes>), NoMemory>
    requires makes_none { is_version change.now ≡ false }
    requires entry { (row : Row) → IsEntry (record { prev = was.now; changes = change_marks row change.now }) }
    ensures spelled { IfOk result (λ x. (row : Row) → entry_of (arc_value x.0) ≡ Ok (record { prev = was.now; changes = all_marks row (change.now ∷ []) })) }
    ensures changes { IfOk result (λ x. arc_value x.1 ≡ change.now ∷ []) }
{
    let bytes = element_bytes(alloc, was, change)?;
    let body = Arc::new(alloc, Body::make(bytes))?;
    let changes = changes_of(alloc, change)?;
    Ok((body, changes))
}

/// The element of a change, which stands on `was`, as bytes.
fn element_bytes(alloc: Global, was: &Option<Key>, change: &Change) -> Result<Vec<u8>, NoMemory>
    requires makes_none { is_version change.now ≡ false }
    requires entry { (row : Row) → IsEntry (record { prev = was.now; changes = change_marks row change.now }) }
    ensures { IfOk result (λ bytes. (row : Row) → entry_of bytes.items ≡ Ok (record { prev = was.now; changes = all_marks row (change.now ∷ []) })) }
{
    let changes = marks_of(alloc, change)?;
    let prev = copied(alloc, was)?;
    entry_bytes(alloc, &Entry { prev, changes })
}

/// A copy of a key, where there is one.
fn copied(alloc: Global, key: &Option<Key>) -> Result<Option<Key>, NoMemory>
    ensures { IfOk result (λ copy. copy ≡ key.now) }
{
    match key {
        None => Ok(None),
        Some(key) => Ok(Some(key.copy(alloc)?)),
    }
}

/// The marks of a change that makes no version.
fn marks_of(alloc: Global, change: &Change) -> Result<Items<ChainMark>, NoMemory>
    requires makes_none { is_version change.now ≡ false }
    ensures { IfOk result (λ marks. (row : Row) → marks ≡ change_marks row change.now) }
{
    match change {
        Change::Removed { versions } => tombs_of(alloc, versions.items()),
        Change::Held { holder, version } => one_mark(
            alloc,
            ChainMark::Hold {
                holder: *holder,
                version: *version,
            },
        ),
        Change::Released { holder } => one_mark(alloc, ChainMark::Release { holder: *holder }),
        Change::Discarded { pieces } => one_mark(
            alloc,
            ChainMark::Discard {
                pieces: Items::from_slice(alloc, pieces.items())?,
            },
        ),
        Change::Restated => Ok(Items::new(alloc)),
        _ => unreachable!(),
    }
}

/// The tombs of these versions.
fn tombs_of(alloc: Global, versions: &[u64]) -> Result<Items<ChainMark>, NoMemory>
    ensures { IfOk result (λ marks. marks ≡ map Tomb versions.now) }
{
    let mut marks = Items::new(alloc);
    for version in versions {
        marks.push(ChainMark::Tomb { version: *version })?;
    }
    Ok(marks)
}

/// This mark alone.
fn one_mark(alloc: Global, mark: ChainMark) -> Result<Items<ChainMark>, NoMemory>
    ensures { IfOk result (λ marks. marks ≡ mark ∷ []) }
{
    let mut marks = Items::new(alloc);
    marks.push(mark)?;
    Ok(marks)
}

/// A change that makes no version, alone and in memory of its own.
fn changes_of(alloc: Global, change: &Change) -> Result<Arc<Changes>, NoMemory>
    requires makes_none { is_version change.now ≡ false }
    ensures { IfOk result (λ changes. arc_value changes ≡ change.now ∷ []) }
{
    let copy = match change {
        Change::Removed { versions } => Change::Removed {
            versions: Items::from_slice(alloc, versions.items())?,
        },
        Change::Held { holder, version } => Change::Held {
            holder: *holder,
            version: *version,
        },
        Change::Released { holder } => Change::Released { holder: *holder },
        Change::Discarded { pieces } => Change::Discarded {
            pieces: Items::from_slice(alloc, pieces.items())?,
        },
        Change::Restated => Change::Restated,
        _ => unreachable!(),
    };
    let mut changes = Items::new(alloc);
    changes.push(copy)?;
    Ok(Arc::new(alloc, changes)?)
}

/// The refusal of a try whose call of the store was refused; `place` is the bucket's place before the call. Spent has a place of its
/// own. A put and a drop have no refusals but these.
pub fn refused_by(place: u64, err: StoreErr) -> Refused
    ensures { result ≡ refused_by place err }
{
    match err {
        StoreErr::NoMemory => Refused {
            place,
            why: Refusal::NoMemory,
        },
        StoreErr::Spent { count } => Refused {
            place: count,
            why: Refusal::Spent { count },
        },
        _ => Refused {
            place,
            why: Refusal::StoreFault,
        },
    }
}
