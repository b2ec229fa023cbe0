//! Tiles of a frame: its parts by rows and columns.
#![tactic(auto)]

mod cutting;
mod grid;
mod joining;
mod laws;
mod tile;
mod tiling;

pub use base_types::NoMemory;
pub use cutting::Cutting;
pub use grid::Grid;
pub use joining::join;
pub use laws::parts_tile;
pub use tile::cut;
pub use tiling::tiles_of;
