ghost use Rattle.std.specs.Prelude.{◌≡◌, ◌∷◌, [], length};

use base_types::{Items, NoMemory};
use std::alloc::Global;

/// Memory for the place of a commit, which is taken before the commit is tried: its reply must name it.
#[derive(Drop)]
pub(crate) struct CommitPlace {
    places: Vec<u64>,
    ghost one: { length places.items ≡ 1 },
}

impl CommitPlace {
    /// The memory.
    pub(crate) fn new(alloc: Global) -> Result<CommitPlace, NoMemory> {
        Ok(CommitPlace {
            places: Vec::from_slice(alloc, &[0])?,
        })
    }

    /// The places of a reply's commits, where this is the only one. It takes no memory.
    pub(crate) fn named(self, place: u64) -> Items<u64>
        ensures { result ≡ place ∷ [] }
    {
        let CommitPlace { mut places, .. } = self;
        places[0] = place;
        Items::from_vec(places)
    }
}
