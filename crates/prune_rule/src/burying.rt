//! Versions are buried in one commit, which is tried again where another client's commit came between.

ghost use Rattle.std.specs.Prelude.{◌≤◌, option_copied};
ghost use Rattle.bucket_core.specs.Calls.{IsSteady};
ghost use Rattle.bucket_core.specs.declared.event.Change.TheVariants.{Removed};
ghost use Rattle.reply_model.specs.Kinds.{Listed, Older};
ghost use Rattle.version_chain.specs.Traces.{GoesOn};
ghost use Rattle.version_chain.specs.Marking.{MayMark, DidMark};
ghost use Rattle.prune_rule.specs.Burials.{burial_of};
ghost use Rattle.prune_rule.specs.Tries.{DidAttempt, DidTries, IsMetBy};
ghost use Rattle.prune_rule.specs.Marked.{MayBury, IsTriedBy, DidOn};
ghost use Rattle.prune_rule.specs.Replies.{IsLegalBurial};

use crate::choosing::{Wish, choose};
use base_types::Items;
use bucket_core::{Bucket, Change};
use frame_core::{Refusal, Refused};
use key_kind::Symbol;
use std::alloc::Global;
use std::sync::Wait;
use version_chain::{StoreLaw, SymbolState, mark_on, walk};

/// Versions that are buried. A place is a number of events.
#[derive(Clone, Copy, PartialEq, Eq)]
pub struct Buried {
    /// How many versions.
    pub versions: u64,
    /// The place of the commit, or of the look that found nothing to bury.
    pub place: u64,
    /// The place of the commit, if there was something to bury.
    pub commit: Option<u64>,
}

/// How a try ended.
pub(crate) enum Tried {
    /// The versions are buried, or there are none to bury.
    Done(Buried),
    /// Another client's commit of this place came between.
    Met(u64),
}

/// Buries these versions of the symbol, or every live one, in at most so many tries (1 to 1,000). It may wait for the store.
///
/// The refusals, in this order: NoSuchSymbol; NoSuchVersion with the first asked number that is not live; Moved after the last try,
/// with the place of the commit that was met. A number that is asked twice counts once. Where nothing is to bury there is no
/// event.
pub fn delete_versions<R: Wait, B: Bucket<StoreLaw>>(
    rt: &R,
    alloc: Global,
    bucket: &mut B,
    symbol: &Symbol,
    versions: Option<&[u64]>,
    tries: u32,
) -> Result<Buried, Refused>
    requires some_tries { 1 ≤ tries }
    requires few_tries { tries ≤ 1000 }
    ensures steady { IsSteady B.number B.limit B.faults B.sole bucket.old bucket.new }
    ensures grown { GoesOn (B.number bucket.old) (B.sole bucket.old) (B.seen bucket.old) (B.seen bucket.new) }
    ensures legal { IsLegalBurial (B.limit bucket.old) (B.number bucket.old) tries symbol.now (Listed (option_copied versions.entry)) (B.faults bucket.old) (B.faults bucket.new) (B.seen bucket.old) (B.seen bucket.new) result }
{
    match versions {
        Some(numbers) => bury(rt, alloc, bucket, symbol, Wish::These(numbers), tries),
        None => bury(rt, alloc, bucket, symbol, Wish::All, tries),
    }
}

/// Buries every live version of the symbol but the newest, in at most so many tries (1 to 1,000). It may wait for the store.
///
/// A version in a snapshot stays readable through it. The refusals, in this order: NoSuchSymbol; Moved after the last try, with the
/// place of the commit that was met. Where nothing is to bury there is no event.
pub fn prune<R: Wait, B: Bucket<StoreLaw>>(
    rt: &R,
    alloc: Global,
    bucket: &mut B,
    symbol: &Symbol,
    tries: u32,
) -> Result<Buried, Refused>
    requires some_tries { 1 ≤ tries }
    requires few_tries { tries ≤ 1000 }
    ensures steady { IsSteady B.number B.limit B.faults B.sole bucket.old bucket.new }
    ensures grown { GoesOn (B.number bucket.old) (B.sole bucket.old) (B.seen bucket.old) (B.seen bucket.new) }
    ensures legal { IsLegalBurial (B.limit bucket.old) (B.number bucket.old) tries symbol.now Older (B.faults bucket.old) (B.faults bucket.new) (B.seen bucket.old) (B.seen bucket.new) result }
{
    bury(rt, alloc, bucket, symbol, Wish::ButNewest, tries)
}

/// Tries to bury versions, until a try is not met by another client's commit, or all were.
fn bury<R: Wait, B: Bucket<StoreLaw>>(
    rt: &R,
    alloc: Global,
    bucket: &mut B,
    symbol: &Symbol,
    wish: Wish,
    tries: u32,
) -> Result<Buried, Refused>
    requires some_tries { 1 ≤ tries }
    ensures steady { IsSteady B.number B.limit B.faults B.sole bucket.old bucket.new }
    ensures did { DidTries (B.number bucket.old) (B.sole bucket.old) symbol.now (burial_of wish.entry) tries (B.limit bucket.old) (B.faults bucket.old) (B.faults bucket.new) (B.seen bucket.old) (B.seen bucket.new) result }
{
    let mut met = 0;
    for _ in 0..tries {
        match attempt(rt, alloc, bucket, symbol, wish)? {
            Tried::Done(buried) => return Ok(buried),
            Tried::Met(place) => met = place,
        }
    }
    Err(Refused {
        place: met,
        why: Refusal::Moved { now: met },
    })
}

/// One try to bury versions.
fn attempt<R: Wait, B: Bucket<StoreLaw>>(
    rt: &R,
    alloc: Global,
    bucket: &mut B,
    symbol: &Symbol,
    wish: Wish,
) -> Result<Tried, Refused>
    ensures steady { IsSteady B.number B.limit B.faults B.sole bucket.old bucket.new }
    ensures did { DidAttempt (B.number bucket.old) (B.sole bucket.old) symbol.now (burial_of wish.entry) (B.limit bucket.old) (B.faults bucket.old) (B.faults bucket.new) (B.seen bucket.old) (B.seen bucket.new) result }
{
    let state = walk(rt, alloc, bucket, symbol)?;
    attempt_on(rt, alloc, bucket, symbol, &state, wish)
}

/// One try to bury versions over a walked state.
fn attempt_on<R: Wait, B: Bucket<StoreLaw>>(
    rt: &R,
    alloc: Global,
    bucket: &mut B,
    symbol: &Symbol,
    state: &SymbolState,
    wish: Wish,
) -> Result<Tried, Refused>
    requires may { MayBury (B.seen bucket.old) (B.number bucket.old) symbol.now wish state.now }
    ensures steady { IsSteady B.number B.limit B.faults B.sole bucket.old bucket.new }
    ensures did { DidOn (B.number bucket.old) (B.sole bucket.old) symbol.now wish.entry state.now (B.limit bucket.old) (B.faults bucket.old) (B.faults bucket.new) (B.seen bucket.old) (B.seen bucket.new) result }
{
    let place = state.place;
    let numbers = match choose(alloc, state, wish) {
        Ok(numbers) => numbers,
        Err(why) => return Err(Refused { place, why }),
    };
    let versions = numbers.len() as u64;
    if numbers.is_empty() {
        return Ok(Tried::Done(Buried {
            versions,
            place,
            commit: None,
        }));
    }
    judged(
        versions,
        mark_chosen(rt, alloc, bucket, symbol, state, numbers),
    )
}

/// The commit of a change that buries these versions over a walked state.
fn mark_chosen<R: Wait, B: Bucket<StoreLaw>>(
    rt: &R,
    alloc: Global,
    bucket: &mut B,
    symbol: &Symbol,
    state: &SymbolState,
    numbers: Items<u64>,
) -> Result<u64, Refused>
    requires may { MayMark (B.seen bucket.old) (B.number bucket.old) symbol.now state.now (Removed numbers) }
    ensures steady { IsSteady B.number B.limit B.faults B.sole bucket.old bucket.new }
    ensures did { DidMark (B.number bucket.old) (B.sole bucket.old) symbol.now state.now.place (Removed numbers) (B.limit bucket.old) (B.faults bucket.old) (B.faults bucket.new) (B.seen bucket.old) (B.seen bucket.new) result }
{
    let change = Change::Removed { versions: numbers };
    mark_on(rt, alloc, bucket, symbol, state, &change)
}

/// How a try ended whose commit, of so many versions, ended so.
fn judged(versions: u64, marked: Result<u64, Refused>) -> Result<Tried, Refused>
    ensures { IsTriedBy versions marked result }
{
    match marked {
        Ok(place) => Ok(Tried::Done(Buried {
            versions,
            place,
            commit: Some(place),
        })),
        Err(refused) => met_by(refused),
    }
}

/// A try that was met is made again; any other refusal is that of the command.
fn met_by(refused: Refused) -> Result<Tried, Refused>
    ensures { IsMetBy refused result }
{
    match refused.why {
        Refusal::Moved { now } => Ok(Tried::Met(now)),
        _ => Err(refused),
    }
}
