ghost use Rattle.std.specs.Prelude.{◌≡◌, List, Option, Ok, IfOk};
ghost use Rattle.frame_core.specs.Texts.{Text};
ghost use Rattle.frame_core.specs.Frames.{Frame as Table, IsFrame};
ghost use Rattle.reply_model.specs.ReadAnswers.{ask};
ghost use Rattle.frame_read.specs.Wholes.{AreTilesOf};
ghost use Rattle.frame_read.specs.Gathers.{AreOfFrame};

use crate::gathering::{gathered_columns, gathered_stamps, opened, sort};
use base_types::{Items, Keep, NoMemory};
use bucket_core::Body;
use frame_core::{Frame, Part, Range, Schema};
use std::alloc::Global;
use std::sync::Arc;

/// A tile of a version's frame, as the store has it.
#[derive(Drop)]
pub struct FetchedTile {
    /// The rows and columns of the frame that the tile has.
    pub part: Part,
    /// The tile's segment, shared with the store.
    pub body: Arc<Body>,
}

/// What is asked of a version's frame: the tiles that have its rows in a range and of these the asked columns.
#[derive(Drop)]
pub struct Tiles {
    /// The asked columns, in the order asked.
    pub schema: Schema,
    /// The range of the rows. The tiles may have more.
    pub range: Range,
    /// The tiles, in order of their first row and then of their first column.
    pub tiles: Items<FetchedTile>,
}

impl Tiles {
    /// What is asked, as a frame in memory of its own: the rows in the range, and of these the asked columns in the order asked.
    ///
    /// Each tile is read where its bytes lie: its fields are not tested again, and only the cells in the range are copied.
    pub fn to_frame(&self, alloc: Global) -> Result<Frame, NoMemory>
        requires { AreOfFrame self.now }
        ensures { IfOk result (λ made. (f : Table) (columns : Option (List Text)) → IsFrame f → AreTilesOf f self.now.range columns self.now → ask f self.now.range columns ≡ Ok made) }
    {
        let mut tiles = opened(alloc, self.tiles.items())?;
        sort(&mut tiles);
        let stamps = gathered_stamps(alloc, self.range, &tiles)?;
        let columns = gathered_columns(alloc, self.schema.columns(), self.range, &tiles)?;
        let schema = self.schema.copy(alloc)?;
        Ok(Frame::from_columns(schema, stamps, columns))
    }
}
