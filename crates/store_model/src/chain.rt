use crate::hold::HoldRow;
use base_types::Items;
use bucket_core::PieceName;
use key_kind::{Holder, Key};

/// A version as its chain names it: its number, stamp and number of rows, and the key of its index.
#[derive(Drop)]
pub struct LinkRow {
    pub version: u64,
    /// The moment of the version, in nanoseconds since 1970.
    pub stamp: i64,
    pub rows: u64,
    pub index: Key,
}

/// A version of a whole state: its link, and whether it is live.
#[derive(Drop)]
pub struct ToldLink {
    pub row: LinkRow,
    pub live: bool,
}

/// The whole state of a symbol, as one element tells it.
#[derive(Drop)]
pub struct WholeState {
    /// Every version ever linked, ascending.
    pub links: Items<ToldLink>,
    /// The unreleased holds, by holder and version.
    pub holds: Items<HoldRow>,
    /// The consumed pieces, by client and serial.
    pub pieces: Items<PieceName>,
}

/// One mark of a chain element.
#[derive(Drop)]
pub enum ChainMark {
    /// A new version.
    Link(LinkRow),
    /// This version is buried.
    Tomb { version: u64 },
    /// The holder holds this version.
    Hold { holder: Holder, version: u64 },
    /// The holder's hold ends.
    Release { holder: Holder },
    /// These staged pieces are consumed.
    Discard { pieces: Items<PieceName> },
    /// All that the chain told before.
    Compact(WholeState),
}

/// An element of a symbol's chain: the key of the element before it, and its marks.
#[derive(Drop)]
pub struct Entry {
    pub prev: Option<Key>,
    pub changes: Items<ChainMark>,
}
