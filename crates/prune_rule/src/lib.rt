//! Versions are buried, and the keys that nobody needs any more are dropped.
#![tactic(auto)]

mod burying;
mod choosing;
mod dropping;
mod finding;
mod memory;
mod parting;
mod piece_keys;
mod reaching;
mod reclaiming;

pub use base_types::NoMemory;
pub use burying::{Buried, delete_versions, prune};
pub use reclaiming::{Freed, reclaim};
