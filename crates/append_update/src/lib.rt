//! Appends and updates: a new version of a symbol that shares the tiles of its newest live version.
#![tactic(auto)]

mod appending;
mod asking;
mod attempt;
mod base;
mod blocks;
mod cuts;
mod edges;
mod fitting;
mod judging;
mod packed_base;
mod pieces;
mod planning;
mod sizes;
mod updating;
mod wish;

pub use appending::append;
pub use base_types::NoMemory;
pub use frame_write::{Committed, Options};
pub use updating::{delete_range, update};
