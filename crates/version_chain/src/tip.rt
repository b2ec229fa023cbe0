ghost use Rattle.std.specs.Prelude.{◌≡◌, ◌++◌, [], ◌∷◌, filter_map, find, length, reverse, Some, false, IfOk, IfErr, OnOk, if◌then◌else◌};
ghost use Rattle.std.specs.List.{list_any};
ghost use Rattle.bucket_core.specs.History.{reference};
ghost use Rattle.bucket_core.specs.Laws.{Looks};
ghost use Rattle.bucket_core.specs.Calls.{IsSteady};
ghost use Rattle.store_model.specs.ChainText.{tomb_of};
ghost use Rattle.store_model.specs.Law.{IsClaimed};
ghost use Rattle.store_model.specs.PlainWalks.{chain};
ghost use Rattle.version_chain.specs.States.{IsWithin, RefusesWalk, is_tomb};
ghost use Rattle.version_chain.specs.Tips.{links_live, is_unburied, number_behind, live_among, IsTipAt, IsTipIn, IsNewestPart};

use crate::collecting::{add_tombs, find_tombs, take_links};
use crate::law::StoreLaw;
use crate::looking::{read_element, read_reference};
use crate::walking::{next_entry, read_elements};
use base_types::{Items, NoMemory};
use bucket_core::Bucket;
use frame_core::{Refusal, Refused};
use key_kind::{Key, Symbol};
use std::alloc::Global;
use std::sync::Wait;
use store_model::{ChainMark, Entry, LinkRow};

/// What a new version needs to know of its symbol.
#[derive(Drop)]
pub struct ChainTip {
    /// The key of the newest element, if the symbol has a reference.
    pub was: Option<Key>,
    /// The number of the next version: one more than that of the newest link, buried or not; 0 where there is none.
    pub next: u64,
    /// The live link of the greatest version.
    pub newest: Option<LinkRow>,
    /// The versions that the new one buries, ascending: with prune those that are live, else none.
    pub buried: Items<u64>,
    /// The number of events that the look at the reference has seen.
    pub place: u64,
}

/// Whether a version is buried.
fn is_buried(tombs: &[u64], version: u64) -> bool
    ensures { result ≡ is_tomb tombs.now version }
{
    tombs.iter().any(|tomb| version == *tomb)
}

/// Whether a mark links a version that is not buried.
fn is_live_link(tombs: &[u64], mark: &ChainMark) -> bool
    ensures { result ≡ links_live tombs.now mark.now }
{
    match mark {
        ChainMark::Link(row) => !is_buried(tombs, row.version),
        _ => false,
    }
}

/// Adds an element behind newer ones, and its Tombs behind theirs. Tells whether it links a version that none of these buries.
fn add_element(
    elements: &mut Items<Entry>,
    tombs: &mut Items<u64>,
    element: Entry,
) -> Result<bool, NoMemory>
    ensures elements { OnOk result (elements.new ≡ elements.old ++ element ∷ []) }
    ensures tombs { OnOk result (tombs.new ≡ tombs.old ++ filter_map tomb_of element.changes) }
    ensures live { IfOk result (λ live. live ≡ list_any (links_live tombs.new) element.changes) }
{
    add_tombs(tombs, element.changes.items())?;
    let tombs = tombs.items();
    let live = element
        .changes
        .items()
        .iter()
        .any(|mark| is_live_link(tombs, mark));
    elements.push(element)?;
    Ok(live)
}

/// The newest elements of the chain, up to the first that links a live version, or all where there is none.
///
/// A Tomb buries a version that was linked before, so that no older element buries that one.
fn read_to_live<R: Wait, B: Bucket<StoreLaw>>(
    rt: &R,
    alloc: Global,
    bucket: &mut B,
    newest: &Key,
) -> Result<Items<Entry>, Refused>
    requires { reference (B.seen bucket.old) newest.now.name ≡ Some newest.now }
    ensures looks { Looks IsClaimed (B.number bucket.old) (B.sole bucket.old) (B.seen bucket.old) (B.seen bucket.new) }
    ensures steady { IsSteady B.number B.limit B.faults B.sole bucket.old bucket.new }
    ensures part { IfOk result (IsNewestPart (chain (B.seen bucket.old) newest.now.name) false) }
    ensures refused { IfErr result (RefusesWalk (B.faults bucket.old) (B.faults bucket.new) (B.seen bucket.old) (B.seen bucket.new)) }
{
    let mut elements = Items::new(alloc);
    let mut tombs = Items::new(alloc);
    while let Some(key) = next_entry(newest, elements.items()) {
        let element = match read_element(rt, alloc, bucket, key) {
            Ok(element) => element,
            Err(refused) => return Err(refused),
        };
        match add_element(&mut elements, &mut tombs, element) {
            Ok(true) => return Ok(elements),
            Ok(false) => {}
            Err(NoMemory) => {
                return Err(Refused {
                    place: bucket.place(),
                    why: Refusal::NoMemory,
                });
            }
        }
    }
    Ok(elements)
}

/// The elements that a new version has to know: all with `whole`, else the newest ones.
fn read_part<R: Wait, B: Bucket<StoreLaw>>(
    rt: &R,
    alloc: Global,
    bucket: &mut B,
    newest: &Key,
    whole: bool,
) -> Result<Items<Entry>, Refused>
    requires { reference (B.seen bucket.old) newest.now.name ≡ Some newest.now }
    ensures looks { Looks IsClaimed (B.number bucket.old) (B.sole bucket.old) (B.seen bucket.old) (B.seen bucket.new) }
    ensures steady { IsSteady B.number B.limit B.faults B.sole bucket.old bucket.new }
    ensures part { IfOk result (IsNewestPart (chain (B.seen bucket.old) newest.now.name) whole) }
    ensures refused { IfErr result (RefusesWalk (B.faults bucket.old) (B.faults bucket.new) (B.seen bucket.old) (B.seen bucket.new)) }
{
    if whole {
        read_elements(rt, alloc, bucket, newest)
    } else {
        read_to_live(rt, alloc, bucket, newest)
    }
}

/// The number behind the last of these links, or 0.
fn next_number(links: &[LinkRow]) -> Result<u64, NoMemory>
    ensures { IfOk result (λ number. number ≡ number_behind (reverse links.now)) }
{
    match links.last() {
        None => Ok(0),
        Some(row) => match row.version.checked_add(1) {
            Some(number) => Ok(number),
            None => Err(NoMemory),
        },
    }
}

/// The numbers of the links that are not buried.
fn live_numbers(alloc: Global, links: &[LinkRow], tombs: &[u64]) -> Result<Items<u64>, NoMemory>
    ensures { IfOk result (λ numbers. numbers ≡ live_among tombs.now links.now) }
{
    let mut numbers = Items::new(alloc);
    for row in links {
        if !is_buried(tombs, row.version) {
            numbers.push(row.version)?;
        }
    }
    Ok(numbers)
}

/// What a new version buries: with `prune` each of these links that is live, else none.
fn buried_by(
    alloc: Global,
    links: &[LinkRow],
    tombs: &[u64],
    prune: bool,
) -> Result<Items<u64>, NoMemory>
    ensures { IfOk result (λ numbers. numbers ≡ (if prune then live_among tombs.now links.now else [])) }
{
    if prune {
        live_numbers(alloc, links, tombs)
    } else {
        Ok(Items::new(alloc))
    }
}

/// The last of these links that is not buried. It is moved and not copied.
fn take_newest(links: Items<LinkRow>, tombs: &[u64]) -> Option<LinkRow>
    ensures { result ≡ find (is_unburied tombs.now) (reverse links) }
{
    let mut rest = links.into_vec();
    while let Some(row) = rest.pop() {
        if !is_buried(tombs, row.version) {
            return Some(row);
        }
    }
    None
}

/// The tip that these elements give, of which the newest is the first.
fn tip_of(
    alloc: Global,
    was: Option<Key>,
    elements: Items<Entry>,
    place: u64,
    prune: bool,
) -> Result<ChainTip, NoMemory>
    ensures { IfOk result (IsTipIn was elements place prune) }
{
    let tombs = find_tombs(alloc, elements.items())?;
    let links = take_links(alloc, elements)?;
    let next = next_number(links.items())?;
    let buried = buried_by(alloc, links.items(), tombs.items(), prune)?;
    let newest = take_newest(links, tombs.items());
    Ok(ChainTip {
        was,
        next,
        newest,
        buried,
        place,
    })
}

/// The tip that the elements give, after the last look.
fn finish<B: Bucket<StoreLaw>>(
    alloc: Global,
    bucket: &B,
    was: Option<Key>,
    elements: Items<Entry>,
    place: u64,
    prune: bool,
) -> Result<ChainTip, Refused>
    ensures tip { IfOk result (IsTipIn was elements place prune) }
    ensures refused { IfErr result (λ refused. (refused.why ≡ Refusal.NoMemory) × (refused.place ≡ length (B.seen bucket.now))) }
{
    match tip_of(alloc, was, elements, place, prune) {
        Ok(tip) => Ok(tip),
        Err(NoMemory) => Err(Refused {
            place: bucket.place(),
            why: Refusal::NoMemory,
        }),
    }
}

/// Looks at the symbol's reference, and then reads the elements of its chain back to the newest live link, or each with `prune`.
/// It may wait for the store.
///
/// The tip is that of the look at the reference: what others do while the elements are read is not in it.
pub fn walk_tip<R: Wait, B: Bucket<StoreLaw>>(
    rt: &R,
    alloc: Global,
    bucket: &mut B,
    symbol: &Symbol,
    prune: bool,
) -> Result<ChainTip, Refused>
    ensures looks { Looks IsClaimed (B.number bucket.old) (B.sole bucket.old) (B.seen bucket.old) (B.seen bucket.new) }
    ensures steady { IsSteady B.number B.limit B.faults B.sole bucket.old bucket.new }
    ensures tip { IfOk result (IsTipAt (B.seen bucket.new) symbol.now prune) }
    ensures place { IfOk result (λ tip. IsWithin (B.seen bucket.old) (B.seen bucket.new) tip.place) }
    ensures refused { IfErr result (RefusesWalk (B.faults bucket.old) (B.faults bucket.new) (B.seen bucket.old) (B.seen bucket.new)) }
{
    let (was, place) = match read_reference(rt, alloc, bucket, symbol) {
        Ok(found) => found,
        Err(refused) => return Err(refused),
    };
    match was {
        None => finish(alloc, bucket, None, Items::new(alloc), place, prune),
        Some(newest) => match read_part(rt, alloc, bucket, &newest, prune) {
            Ok(elements) => finish(alloc, bucket, Some(newest), elements, place, prune),
            Err(refused) => Err(refused),
        },
    }
}
