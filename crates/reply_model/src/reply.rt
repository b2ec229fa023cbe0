use crate::outcome::Outcome;
use base_types::Items;
use key_kind::Symbol;

/// What a command answers, and where in the history. A place is a number of events.
#[derive(Drop)]
pub struct Reply {
    /// The place at which the answer holds.
    pub place: u64,
    /// The place of the list of staged pieces or of symbols that the command went by, where it made one.
    pub listed: Option<u64>,
    /// The places of the command's own commits, in order; after a failure of the store one more may stand.
    pub commits: Items<u64>,
    /// The symbols of which a hold was left.
    pub left: Items<Symbol>,
    pub outcome: Outcome,
}
