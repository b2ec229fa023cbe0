// Memory for the replies of blocks.
ghost use Rattle.std.specs.Prelude.{◌≡◌, length, map, reverse, IfOk};
ghost use Rattle.client_sessions.specs.Rooms.{counts};

use crate::room::Room;
use base_types::{Items, NoMemory};
use expr_clause::Command;
use std::alloc::Global;

/// Memory for the replies of each block: that of the first block is the last, so that it is popped first.
pub(crate) fn make_rooms(alloc: Global, blocks: &[Items<Command>]) -> Result<Vec<Room>, NoMemory>
    ensures { IfOk result (λ rooms. counts rooms.items ≡ reverse (map length blocks.now)) }
{
    let mut rooms = Vec::new(alloc);
    for block in blocks {
        rooms.push(Room::make(alloc, block.len())?)?;
    }
    rooms.reverse();
    Ok(rooms)
}
