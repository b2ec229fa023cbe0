//! All tiles of a frame.

ghost use Rattle.std.specs.Prelude.{◌≡◌, ◌<◌, ◌++◌, map, IfOk, OnOk};
ghost use Rattle.segment_cut.specs.Tiles.{Tiled, cut as part_of};
ghost use Rattle.segment_cut.specs.Grids.{row_blocks, block_parts, grid_of, tiles_of as all_tiles};

use crate::cutting::Cutting;
use crate::grid::Grid;
use crate::tile::cut;
use base_types::{Items, NoMemory};
use frame_core::{Frame, Part};
use std::alloc::Global;

/// The tiles of a frame, block by block and slice by slice, each with its part, in memory of their own.
pub fn tiles_of(
    alloc: Global,
    frame: &Frame,
    cutting: Cutting,
) -> Result<Items<(Part, Frame)>, NoMemory>
    ensures tiles { IfOk result (λ tiles. tiles ≡ all_tiles frame.now cutting) }
    ensures tiled { IfOk result (Tiled frame.now) }
{
    let _rows = cutting.rows();
    let mut tiles = Items::new(alloc);
    for block in 0..divided(frame, cutting).row_blocks() {
        add_block(alloc, frame, cutting, block, &mut tiles)?;
    }
    Ok(tiles)
}

/// The grid of a frame.
fn divided(frame: &Frame, cutting: Cutting) -> Grid
    ensures { result ≡ grid_of frame.now cutting }
{
    Grid::make(frame.rows(), frame.schema().len() as u64, cutting)
}

/// The tiles of a block go behind those that are there.
fn add_block(
    alloc: Global,
    frame: &Frame,
    cutting: Cutting,
    block: u64,
    tiles: &mut Items<(Part, Frame)>,
) -> Result<(), NoMemory>
    requires { block < row_blocks (grid_of frame.now cutting) }
    ensures { OnOk result (tiles.new ≡ tiles.old ++ map (λ p. (p, part_of frame.now p)) (block_parts (grid_of frame.now cutting) block)) }
{
    let _rows = cutting.rows();
    let grid = divided(frame, cutting);
    for slice in 0..grid.col_blocks() {
        let part = grid.part(block, slice);
        tiles.push((part, cut(alloc, frame, part)?))?;
    }
    Ok(())
}
