ghost use Rattle.std.specs.Prelude.{◌≡◌, length, map, Some, IfOk, IfErr, option_copied};
ghost use Rattle.bucket_core.specs.History.{reference};
ghost use Rattle.bucket_core.specs.Laws.{Looks};
ghost use Rattle.bucket_core.specs.Calls.{IsSteady};
ghost use Rattle.store_model.specs.Law.{IsClaimed};
ghost use Rattle.store_model.specs.Commits.{Rising};
ghost use Rattle.store_model.specs.PlainWalks.{chain};
ghost use Rattle.version_chain.specs.States.{IsStateAt, IsWithin, RefusesWalk};
ghost use Rattle.version_chain.specs.Elements.{next_of, IsCollected};

use crate::collecting::collect;
use crate::law::StoreLaw;
use crate::looking::{read_element, read_reference};
use crate::state::SymbolState;
use base_types::{Items, NoMemory};
use bucket_core::Bucket;
use frame_core::{Refusal, Refused};
use key_kind::{Key, Symbol};
use std::alloc::Global;
use std::sync::Wait;
use store_model::Entry;

/// The entry before those elements, of which the last is the oldest so far.
pub(crate) fn next_entry<'a>(newest: &'a Key, elements: &'a [Entry]) -> Option<&'a Key>
    ensures { option_copied result ≡ next_of newest.now elements.now }
{
    match elements.last() {
        Some(element) => match &element.prev {
            Some(key) => Some(key),
            None => None,
        },
        None => Some(newest),
    }
}

/// The elements of the chain of which this is the newest entry, the newest first.
pub(crate) fn read_elements<R: Wait, B: Bucket<StoreLaw>>(
    rt: &R,
    alloc: Global,
    bucket: &mut B,
    newest: &Key,
) -> Result<Items<Entry>, Refused>
    requires { reference (B.seen bucket.old) newest.now.name ≡ Some newest.now }
    ensures looks { Looks IsClaimed (B.number bucket.old) (B.sole bucket.old) (B.seen bucket.old) (B.seen bucket.new) }
    ensures steady { IsSteady B.number B.limit B.faults B.sole bucket.old bucket.new }
    ensures elements { IfOk result (λ elements. elements ≡ chain (B.seen bucket.old) newest.now.name) }
    ensures refused { IfErr result (RefusesWalk (B.faults bucket.old) (B.faults bucket.new) (B.seen bucket.old) (B.seen bucket.new)) }
{
    let mut elements = Items::new(alloc);
    while let Some(key) = next_entry(newest, elements.items()) {
        let element = match read_element(rt, alloc, bucket, key) {
            Ok(element) => element,
            Err(refused) => return Err(refused),
        };
        if let Err(NoMemory) = elements.push(element) {
            return Err(Refused {
                place: bucket.place(),
                why: Refusal::NoMemory,
            });
        }
    }
    Ok(elements)
}

/// The state that the elements of a chain give, after the last look.
fn finish<B: Bucket<StoreLaw>>(
    alloc: Global,
    bucket: &B,
    was: Option<Key>,
    elements: Items<Entry>,
    place: u64,
) -> Result<SymbolState, Refused>
    ensures collected { IfOk result (IsCollected was elements place) }
    ensures refused { IfErr result (λ refused. (refused.why ≡ Refusal.NoMemory) × (refused.place ≡ length (B.seen bucket.now))) }
{
    match collect(alloc, was, elements, place) {
        Ok(state) => Ok(state),
        Err(NoMemory) => Err(Refused {
            place: bucket.place(),
            why: Refusal::NoMemory,
        }),
    }
}

/// Looks at the symbol's reference, and then reads each element of its chain back to the first. It may wait for the store.
///
/// The state is that of the look at the reference: what others do while the elements are read is not in it.
pub fn walk<R: Wait, B: Bucket<StoreLaw>>(
    rt: &R,
    alloc: Global,
    bucket: &mut B,
    symbol: &Symbol,
) -> Result<SymbolState, Refused>
    ensures looks { Looks IsClaimed (B.number bucket.old) (B.sole bucket.old) (B.seen bucket.old) (B.seen bucket.new) }
    ensures steady { IsSteady B.number B.limit B.faults B.sole bucket.old bucket.new }
    ensures state { IfOk result (IsStateAt (B.seen bucket.new) symbol.now) }
    ensures place { IfOk result (λ state. IsWithin (B.seen bucket.old) (B.seen bucket.new) state.place) }
    ensures rising { IfOk result (λ state. Rising (map (λ row. row.version) state.links)) }
    ensures refused { IfErr result (RefusesWalk (B.faults bucket.old) (B.faults bucket.new) (B.seen bucket.old) (B.seen bucket.new)) }
{
    let (was, place) = match read_reference(rt, alloc, bucket, symbol) {
        Ok(found) => found,
        Err(refused) => return Err(refused),
    };
    match was {
        None => finish(alloc, bucket, None, Items::new(alloc), place),
        Some(newest) => match read_elements(rt, alloc, bucket, &newest) {
            Ok(elements) => finish(alloc, bucket, Some(newest), elements, place),
            Err(refused) => Err(refused),
        },
    }
}
