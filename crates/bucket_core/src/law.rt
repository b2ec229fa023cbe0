ghost use Rattle.bucket_core.specs.declared.event.Event.{Event};
ghost use Rattle.bucket_core.specs.History.{History};
ghost use Rattle.bucket_core.specs.Laws.{ClaimsStay, TestsTell};
ghost use Rattle.bucket_core.specs.Calls.{MovesOn};

/// What the callers of a bucket claim of the events that they add. A claim stays true while others add lawful events that do
/// not touch it, and a reference that has moved on from an entry does not come back to it.
pub trait Law {
    /// What is claimed of an event that is to follow a history.
    ghost claimed: { History → Event → Type 0 };

    ghost claims_stay: { ClaimsStay claimed };

    ghost tests_tell: { TestsTell claimed };

    ghost moves_on: { MovesOn claimed };
}
