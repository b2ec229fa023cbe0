//! What the history of a store tells: the library of its symbols and snapshots, the chains behind it, and the law of its events.
#![tactic(auto)]

mod chain;
mod hold;
mod snapshot;
mod theorem;

pub use base_types::{Items, Keep, NoMemory};
pub use chain::{ChainMark, Entry, LinkRow, ToldLink, WholeState};
pub use hold::HoldRow;
pub use snapshot::{SnapBody, SnapRow};
pub use theorem::{
    beginnings_are_lawful, claims_stay, each_event_keeps_what_is_needed, library_lists_agree,
    nothing_is_left_over, nothing_needed_is_dropped, pieces_are_consumed_once, references_move_on,
    second_looks_settle, tests_tell, walks_give_the_state,
};

/// The marks of an element, seen as a list.
pub type ChainMarks = Items<ChainMark>;

/// Links, seen as a list.
pub type LinkRows = Items<LinkRow>;

/// The versions of a whole state, seen as a list.
pub type ToldLinks = Items<ToldLink>;

/// The symbols of a snapshot, ascending, seen as a list.
pub type SnapRows = Items<SnapRow>;

/// Holds, seen as a list.
pub type HoldRows = Items<HoldRow>;
