//! The numbers of tasks in a queue that threads share: each is pulled once.
#![tactic(auto)]

mod calls;
mod hand;
mod puller;
mod pullers;
mod queue;

pub use puller::{LastPuller, Puller, Pullers};
pub use queue::TaskQueue;
