ghost use Rattle.std.specs.Prelude.{◌≡◌, ◌≤◌, ◌<◌, ◌++◌, map, IfOk, OnOk, Ok};
ghost use Rattle.std.specs.Arc.{arc_value};
ghost use Rattle.std.specs.List.{AllByRecursion};
ghost use Rattle.frame_core.specs.Limits.{IsStorable};
ghost use Rattle.segment_bytes.specs.Segments.{segment_of};
ghost use Rattle.segment_cut.specs.Tiles.{LiesIn};
ghost use Rattle.segment_cut.specs.Grids.{row_blocks, block_parts, grid_of};
ghost use Rattle.frame_write.specs.Placing.{IsTileOf, AreTilesOf};

use base_types::{Items, NoMemory};
use bucket_core::Body;
use frame_core::{Frame, Part};
use segment_bytes::encode;
use segment_cut::{Cutting, Grid, cut};
use std::alloc::Global;
use std::sync::Arc;

/// A tile of a frame, as it is put by every try.
#[derive(Drop)]
pub(crate) struct Tile {
    /// The rows and columns of the frame that the tile has.
    pub(crate) part: Part,
    /// The stamp of the tile's first row, in nanoseconds since 1970.
    pub(crate) first: i64,
    /// The stamp of the tile's last row.
    pub(crate) last: i64,
    /// The tile's segment.
    pub(crate) body: Arc<Body>,
}

/// The tiles of a frame, block by block and slice by slice.
pub(crate) fn tiles_of(
    alloc: Global,
    frame: &Frame,
    cutting: Cutting,
) -> Result<Items<Tile>, NoMemory>
    requires storable { IsStorable frame.now }
    ensures { IfOk result (AreTilesOf frame.now cutting) }
{
    let _rows = cutting.rows();
    let mut tiles = Items::new(alloc);
    for block in 0..divided(frame, cutting).row_blocks() {
        add_block(alloc, frame, cutting, block, &mut tiles)?;
    }
    Ok(tiles)
}

/// The grid of a frame.
fn divided(frame: &Frame, cutting: Cutting) -> Grid
    ensures { result ≡ grid_of frame.now cutting }
{
    Grid::make(frame.rows(), frame.schema().len() as u64, cutting)
}

/// The tiles of a block go behind those that are there.
fn add_block(
    alloc: Global,
    frame: &Frame,
    cutting: Cutting,
    block: u64,
    tiles: &mut Items<Tile>,
) -> Result<(), NoMemory>
    requires storable { IsStorable frame.now }
    requires block { block < row_blocks (grid_of frame.now cutting) }
    ensures parts { OnOk result (map (λ (t : Tile). t.part) tiles.new ≡ map (λ (t : Tile). t.part) tiles.old ++ block_parts (grid_of frame.now cutting) block) }
    ensures each { OnOk result (AllByRecursion (IsTileOf frame.now) tiles.old → AllByRecursion (IsTileOf frame.now) tiles.new) }
{
    let _rows = cutting.rows();
    let grid = divided(frame, cutting);
    for slice in 0..grid.col_blocks() {
        let part = grid.part(block, slice);
        tiles.push(tile_of(alloc, frame, part)?)?;
    }
    Ok(())
}

/// The tile of a part.
fn tile_of(alloc: Global, frame: &Frame, part: Part) -> Result<Tile, NoMemory>
    requires storable { IsStorable frame.now }
    requires lies { LiesIn frame.now part }
    requires some_rows { 1 ≤ part.rows }
    ensures part { IfOk result (λ tile. tile.part ≡ part) }
    ensures tile { IfOk result (IsTileOf frame.now) }
{
    let tile = cut(alloc, frame, part)?;
    let first = tile.first_stamp().unwrap_or(0);
    let last = tile.last_stamp().unwrap_or(0);
    let body = segment_body(alloc, &tile)?;
    Ok(Tile {
        part,
        first,
        last,
        body,
    })
}

/// The segment of a frame.
fn segment_body(alloc: Global, frame: &Frame) -> Result<Arc<Body>, NoMemory>
    requires { IsStorable frame.now }
    ensures { IfOk result (λ body. segment_of (arc_value body) ≡ Ok frame.now) }
{
    Ok(Arc::new(alloc, Body::make(encode(alloc, frame)?))?)
}
