ghost use Rattle.std.specs.Prelude.{◌≡◌};

use frame_core::{Refusal, Refused};

/// Want of memory, at a place.
pub(crate) fn out_of_memory(place: u64) -> Refused
    ensures { result ≡ record { place = place; why = Refusal.NoMemory } }
{
    Refused {
        place,
        why: Refusal::NoMemory,
    }
}
