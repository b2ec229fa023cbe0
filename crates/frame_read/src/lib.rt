//! Reads: which version is asked, the tiles of its frame in a range, and the list of versions.
#![tactic(auto)]

mod choosing;
mod copying;
mod counts;
mod fetching;
mod gathering;
mod laws;
mod objects;
mod resolving;
mod searching;
mod target;
mod tile_view;
mod tiles;
mod versions;

pub use base_types::NoMemory;
pub use choosing::choose;
pub use fetching::{fetch, get_tiles};
pub use laws::fetched_tiles_have_what_is_asked;
pub use objects::{index_of, packed_index_of};
pub use resolving::resolve;
pub use target::Target;
pub use tiles::{FetchedTile, Tiles};
pub use versions::{VersionList, list_versions};
