//! The library of one client: each command of a client is carried out by one step.
#![tactic(auto)]

mod appending;
mod burying;
mod commit_place;
mod keys;
mod library;
mod preparing;
mod reading;
mod reclaiming;
mod reply;
mod settings;
mod step;
mod updating;
mod versions;
mod writing;

pub use base_types::{Items, NoMemory};
pub use library::Library;
pub use settings::Settings;
pub use step::is_carried_out;
