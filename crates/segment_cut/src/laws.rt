ghost use Rattle.std.specs.Prelude.{◌≡◌, []};
ghost use Rattle.frame_core.specs.Frames.{Frame, IsFrame};
ghost use Rattle.segment_cut.specs.Tiles.{Tiled};
ghost use Rattle.segment_cut.specs.Grids.{tiles_of};
ghost use Rattle.segment_cut.specs.Joins.{IsTiledBy};

use crate::cutting::Cutting;

/// The parts of a grid with what is cut there tile the frame, for every cutting, so that `join` makes this frame of them;
/// a frame without rows has no part. This does nothing: it states a law.
pub fn parts_tile(cutting: Cutting)
    ensures tiled { (f : Frame) → Tiled f (tiles_of f cutting) }
    ensures joined { (f : Frame) → IsFrame f → IsTiledBy f.schema (tiles_of f cutting) f }
    ensures no_rows { (f : Frame) → f.rows ≡ [] → tiles_of f cutting ≡ [] }
{
    let _rows = cutting.rows();
}
