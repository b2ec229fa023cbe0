ghost use Rattle.std.specs.Prelude.{◌≡◌, ℕ, true, length, Some, IfOk, IfErr};
ghost use Rattle.key_kind.specs.Keys.{reference_key};
ghost use Rattle.bucket_core.specs.History.{reference};
ghost use Rattle.bucket_core.specs.Laws.{Looks};
ghost use Rattle.bucket_core.specs.Calls.{IsSteady, IsFound, RefusesLook};
ghost use Rattle.store_model.specs.Law.{IsClaimed};
ghost use Rattle.store_model.specs.Links.{is_entry, element};
ghost use Rattle.version_chain.specs.States.{IsLookRefusal, RefusesWalk};

use crate::elements::entry_read;
use crate::fault::EntryFault;
use crate::law::StoreLaw;
use bucket_core::{Bucket, Found, StoreErr};
use frame_core::{Refusal, Refused};
use key_kind::{Key, KeyFault, Symbol};
use std::alloc::Global;
use std::sync::Wait;
use store_model::Entry;

/// The refusal of a look, for the callers of a walk.
fn refusal_of(why: StoreErr) -> Refusal
    ensures { (before now : ℕ) → RefusesLook before now why → IsLookRefusal before now result }
{
    match why {
        StoreErr::NoMemory => Refusal::NoMemory,
        _ => Refusal::StoreFault,
    }
}

/// What stands under a key.
fn look<R: Wait, B: Bucket<StoreLaw>>(rt: &R, bucket: &mut B, key: &Key) -> Result<Found, Refused>
    ensures looks { Looks IsClaimed (B.number bucket.old) (B.sole bucket.old) (B.seen bucket.old) (B.seen bucket.new) }
    ensures steady { IsSteady B.number B.limit B.faults B.sole bucket.old bucket.new }
    ensures found { IfOk result (IsFound (B.seen bucket.new) key.now) }
    ensures refused { IfErr result (RefusesWalk (B.faults bucket.old) (B.faults bucket.new) (B.seen bucket.old) (B.seen bucket.new)) }
{
    let place = bucket.place();
    match bucket.get(rt, key) {
        Ok(found) => Ok(found),
        Err(why) => Err(Refused {
            place,
            why: refusal_of(why),
        }),
    }
}

/// The element that was put under an entry.
pub(crate) fn read_element<R: Wait, B: Bucket<StoreLaw>>(
    rt: &R,
    alloc: Global,
    bucket: &mut B,
    key: &Key,
) -> Result<Entry, Refused>
    requires { is_entry (B.seen bucket.old) key.now.name key.now ≡ true }
    ensures looks { Looks IsClaimed (B.number bucket.old) (B.sole bucket.old) (B.seen bucket.old) (B.seen bucket.new) }
    ensures steady { IsSteady B.number B.limit B.faults B.sole bucket.old bucket.new }
    ensures element { IfOk result (λ entry. element (B.seen bucket.new) key.now ≡ Some entry) }
    ensures refused { IfErr result (RefusesWalk (B.faults bucket.old) (B.faults bucket.new) (B.seen bucket.old) (B.seen bucket.new)) }
{
    let found = match look(rt, bucket, key) {
        Ok(found) => found,
        Err(refused) => return Err(refused),
    };
    match found.body {
        Some(body) => match entry_read(alloc, body.bytes()) {
            Ok(entry) => Ok(entry),
            Err(EntryFault::NoMemory) => Err(Refused {
                place: bucket.place(),
                why: Refusal::NoMemory,
            }),
            Err(EntryFault::Bad { .. }) => unreachable!(),
        },
        None => unreachable!(),
    }
}

/// What stands at a symbol's reference.
fn look_reference<R: Wait, B: Bucket<StoreLaw>>(
    rt: &R,
    alloc: Global,
    bucket: &mut B,
    symbol: &Symbol,
) -> Result<Found, Refused>
    ensures looks { Looks IsClaimed (B.number bucket.old) (B.sole bucket.old) (B.seen bucket.old) (B.seen bucket.new) }
    ensures steady { IsSteady B.number B.limit B.faults B.sole bucket.old bucket.new }
    ensures found { IfOk result (IsFound (B.seen bucket.new) (reference_key symbol.now)) }
    ensures refused { IfErr result (RefusesWalk (B.faults bucket.old) (B.faults bucket.new) (B.seen bucket.old) (B.seen bucket.new)) }
{
    let Ok(key) = Key::reference(alloc, symbol) else {
        return Err(Refused {
            place: bucket.place(),
            why: Refusal::NoMemory,
        });
    };
    look(rt, bucket, &key)
}

/// The newest entry of a symbol's chain, if it has one, and the place of the look.
pub(crate) fn read_reference<R: Wait, B: Bucket<StoreLaw>>(
    rt: &R,
    alloc: Global,
    bucket: &mut B,
    symbol: &Symbol,
) -> Result<(Option<Key>, u64), Refused>
    ensures looks { Looks IsClaimed (B.number bucket.old) (B.sole bucket.old) (B.seen bucket.old) (B.seen bucket.new) }
    ensures steady { IsSteady B.number B.limit B.faults B.sole bucket.old bucket.new }
    ensures reference { IfOk result (λ x. x.0 ≡ reference (B.seen bucket.new) symbol.now) }
    ensures place { IfOk result (λ x. x.1 ≡ length (B.seen bucket.new)) }
    ensures refused { IfErr result (RefusesWalk (B.faults bucket.old) (B.faults bucket.new) (B.seen bucket.old) (B.seen bucket.new)) }
{
    let found = match look_reference(rt, alloc, bucket, symbol) {
        Ok(found) => found,
        Err(refused) => return Err(refused),
    };
    let place = found.place;
    match found.body {
        Some(body) => match Key::read(alloc, body.bytes()) {
            Ok((entry, _)) => Ok((Some(entry), place)),
            Err(KeyFault::NoMemory) => Err(Refused {
                place,
                why: Refusal::NoMemory,
            }),
            Err(KeyFault::NotAKey) => unreachable!(),
        },
        None => Ok((None, place)),
    }
}
