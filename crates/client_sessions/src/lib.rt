//! Sessions: the commands of clients, each on a thread of its own, over one shared store.
#![tactic(auto)]

mod block_rooms;
mod blocks;
mod parts;
mod room;
mod session;

pub use parts::{PartReplies, run_parts};
pub use session::carry_out;
