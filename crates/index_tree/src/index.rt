ghost use Rattle.std.specs.Prelude.{◌≡◌};
ghost use Rattle.index_tree.specs.SlotTexts.{span_of};

use crate::span::Span;
use base_types::{Items, Keep, NoMemory};
use frame_core::{Part, Schema};
use key_kind::Key;
use std::alloc::Global;

/// Where one tile of a frame lies.
#[derive(Drop)]
pub struct Slot {
    /// The key of the tile's segment.
    pub key: Key,
    /// The rows and columns of the frame that the tile has.
    pub part: Part,
    /// The stamp of the tile's first row, in nanoseconds since 1970.
    pub first: i64,
    /// The stamp of the tile's last row.
    pub last: i64,
}

impl Slot {
    /// The rows, columns and stamps.
    pub(crate) fn span(&self) -> Span
        ensures { result ≡ span_of self.now }
    {
        Span {
            part: self.part,
            first: self.first,
            last: self.last,
        }
    }
}

impl Keep for Slot {
    fn copy(&self, alloc: Global) -> Result<Slot, NoMemory> {
        Ok(Slot {
            key: self.key.copy(alloc)?,
            part: self.part,
            first: self.first,
            last: self.last,
        })
    }
}

/// Where the tiles of a frame lie.
#[derive(Drop)]
pub struct Index {
    /// The columns of the frame, which is timed.
    pub schema: Schema,
    /// How many rows the frame has.
    pub rows: u64,
    /// The tiles, in order of their first row and then of their first column.
    pub slots: Items<Slot>,
}

impl Keep for Index {
    fn copy(&self, alloc: Global) -> Result<Index, NoMemory> {
        Ok(Index {
            schema: self.schema.copy(alloc)?,
            rows: self.rows,
            slots: self.slots.copy(alloc)?,
        })
    }
}
