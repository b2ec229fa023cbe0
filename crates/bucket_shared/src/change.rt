// A change of a shared store by one event.
ghost use Rattle.std.specs.Prelude.{◌≡◌, ◌<◌, ◌≤◌, ◌^◌, ℕ, OnOk, OnErr, IfErr, IfSome};
ghost use Rattle.bucket_core.specs.declared.event.Event.{Event};
ghost use Rattle.bucket_core.specs.declared.answer.StoreErr.{StoreErr as Cause};
ghost use Rattle.bucket_core.specs.History.{History, author};
ghost use Rattle.bucket_core.specs.Showing.{Shows, ShowsSame, events_of};
ghost use Rattle.bucket_shared.specs.Changes.{IsMade, IsSpent};
ghost use Rattle.bucket_shared.specs.Stories.{event_row};

use bucket_core::{Contents, StoreErr};

/// A change of a store's contents by one event, which a call makes in its turn.
pub(crate) trait Change {
    /// The event, by the number of the client that makes the change.
    ghost event: { Self → ℕ → Event };

    /// What is tested of the history that the event follows.
    ghost tested: { Self → History → Type 0 };

    /// Why the change is refused, by the limit and the history.
    ghost refuses: { Self → ℕ → History → Cause → Type 0 };

    /// The row of the event, if it has one.
    fn row(&self) -> Option<u32>
        ensures row { (client : ℕ) → event_row (event self.now client) ≡ result }
        ensures bound { IfSome result (λ row. row < 256) };

    /// Makes the change where there are fewer events than the limit. A refusal leaves what the contents show.
    fn make(self, contents: &mut Contents, limit: u64) -> Result<(), StoreErr>
        requires limit { limit ≤ 2 ^ 62 }
        ensures made { OnOk result ((client : ℕ) (h : History) → Shows contents.old h → IsMade contents.new limit (event self client) (tested self) h) }
        ensures same { OnErr result (ShowsSame contents.old contents.new) }
        ensures refused { IfErr result (λ why. (h : History) → Shows contents.old h → refuses self limit h why) };

    /// The event is by that client.
    ghost by: { (change : Self) (client : ℕ) → author (event change client) ≡ client };
}

/// Whether there are fewer events than the limit.
pub(crate) fn test_room(contents: &Contents, limit: u64) -> Result<(), StoreErr>
    ensures room { OnOk result (events_of contents.now < limit) }
    ensures spent { IfErr result (IsSpent limit (events_of contents.now)) }
{
    let count = contents.len();
    if limit <= count {
        return Err(StoreErr::Spent { count });
    }
    Ok(())
}
