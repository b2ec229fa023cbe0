//! Writes of whole frames: a frame is cut into tiles, and these, their index and an element are put and then linked in one commit,
//! which is tried again where another client's commit came between.
#![tactic(auto)]

mod attempt;
mod changes;
mod commit;
mod drops;
mod elements;
mod laying;
mod link;
mod options;
mod pieces;
mod placing;
mod plan;
mod puts;
mod tiles;
mod write;

pub use base_types::NoMemory;
pub use link::link_on;
pub use options::{Committed, Options};
pub use pieces::{LinkPlan, Piece};
pub use write::write_link;
