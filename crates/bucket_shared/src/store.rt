// The value that passes take by turns.
use bucket_core::{Contents, Event};
use turn_cell::Storied;

/// What passes share: what the history leaves, and the greatest client number that was given out.
#[derive(Drop)]
pub(crate) struct Store {
    pub(crate) contents: Contents,
    pub(crate) given: u32,
}

impl Storied for Store {
    ghost use Rattle.bucket_core.specs.History.{author as client_of};
    ghost use Rattle.bucket_shared.specs.Stories.{StandsFor, event_row};

    type Entry = Event;

    ghost stands = { λ s log. StandsFor s.contents log };

    ghost author = { client_of };

    ghost row_of = { event_row };

    ghost greatest = { λ s. s.given };
}
