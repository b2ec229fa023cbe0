// Memory for the replies of one client, taken before its commands are carried out.
ghost use Rattle.std.specs.Prelude.{◌≡◌, ◌+◌, ◌<◌, ◌≤◌, ◌++◌, ◌∷◌, [], IfOk};
ghost use Rattle.std.specs.Vec.{vec_len, vec_capacity};

use base_types::NoMemory;
use reply_model::Reply;
use std::alloc::Global;

/// Memory for the replies of so many commands.
#[derive(Drop)]
pub(crate) struct Room {
    pub(crate) replies: Vec<Reply>,
    pub(crate) count: usize,
    ghost none: { replies.items ≡ [] },
    ghost fits: { count ≤ vec_capacity replies },
}

impl Room {
    /// The memory.
    pub(crate) fn make(alloc: Global, count: usize) -> Result<Room, NoMemory>
        ensures { IfOk result (λ room. room.count ≡ count) }
    {
        Ok(Room {
            replies: Vec::with_capacity(alloc, count)?,
            count,
        })
    }
}

/// One item more, for which there is memory.
pub(crate) fn noted<T: Drop>(mut told: Vec<T>, item: T) -> Vec<T>
    requires space { vec_len told < vec_capacity told }
    ensures items { result.items ≡ told.items ++ item ∷ [] }
    ensures len { vec_len result ≡ vec_len told + 1 }
    ensures space { vec_capacity told ≤ vec_capacity result }
{
    let Ok(()) = told.push(item) else {
        unreachable!();
    };
    told
}
