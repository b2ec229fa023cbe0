//! What a client of a store is answered, what the one-thread library answers, and when replies are legal in a history.
#![tactic(auto)]

mod outcome;
mod reply;
mod theorem;

pub use base_types::{Items, Keep, NoMemory};
use key_kind::SnapName;
pub use outcome::{HeldAt, Outcome, SymbolRow, VersionRow};
pub use reply::Reply;
pub use theorem::{
    commands_are_isolated, legal_reclaims_alone_are_sole, legal_replies_alone_are_sole,
    legal_replies_stay_legal, refused_commands_change_nothing, runs_alone_are_sole,
};

/// The symbols that a snapshot holds, in ascending order, seen as a list.
pub type HeldList = Items<HeldAt>;

/// Versions, in ascending order, seen as a list.
pub type VersionRows = Items<VersionRow>;

/// Symbols with their newest versions, in ascending order, seen as a list.
pub type SymbolRows = Items<SymbolRow>;

/// Names of snapshots, in ascending order, seen as a list.
pub type SnapNames = Items<SnapName>;
