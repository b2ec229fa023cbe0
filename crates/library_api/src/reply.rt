//! Replies that name nothing but a place, an outcome and commits.

ghost use Rattle.std.specs.Prelude.{◌≡◌};
ghost use Rattle.library_api.specs.Steps.{reply_with, plain_reply, refusal_reply};

use base_types::Items;
use frame_core::{Refusal, Refused};
use reply_model::{Outcome, Reply};
use std::alloc::Global;

/// A reply with these commits, without a list and left holds. It takes no memory.
pub(crate) fn with_commits(
    alloc: Global,
    place: u64,
    commits: Items<u64>,
    outcome: Outcome,
) -> Reply
    ensures { result ≡ reply_with place commits outcome }
{
    Reply {
        place,
        listed: None,
        commits,
        left: Items::new(alloc),
        outcome,
    }
}

/// A reply without a list, commits and left holds. It takes no memory.
pub(crate) fn plain(alloc: Global, place: u64, outcome: Outcome) -> Reply
    ensures { result ≡ plain_reply place outcome }
{
    with_commits(alloc, place, Items::new(alloc), outcome)
}

/// The reply of a refusal. It takes no memory.
pub(crate) fn refusal(alloc: Global, refused: Refused) -> Reply
    ensures { result ≡ refusal_reply refused }
{
    plain(alloc, refused.place, Outcome::Refused { why: refused.why })
}

/// Want of memory, at a place.
pub(crate) fn out_of_memory(place: u64) -> Refused
    ensures { result ≡ record { place = place; why = Refusal.NoMemory } }
{
    Refused {
        place,
        why: Refusal::NoMemory,
    }
}
