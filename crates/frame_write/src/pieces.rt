use base_types::Items;
use bucket_core::Change;
use frame_core::{Frame, Schema};
use index_tree::SlotText;

/// Rows of a new version, from column 0 to the last: some that the newest live version has already, or new ones.
#[derive(Drop)]
pub enum Piece {
    /// Whole row blocks of the newest live version, one behind the other, by the slots that its index has for them: each with
    /// all its slices. Their tiles keep their keys. The first block begins where the pieces before it end, and the others
    /// follow it as they did.
    Shared(SlotText),
    /// Rows that get tiles of their own.
    Fresh(Frame),
}

/// A new version of a symbol: what it changes, and its whole frame in pieces from the first row to the last.
#[derive(Drop)]
pub struct LinkPlan {
    /// The columns of the whole frame.
    pub schema: Schema,
    /// The rows of the whole frame, in their order.
    pub pieces: Items<Piece>,
    /// The change that makes the version: it was written, appended or updated.
    pub change: Change,
}
