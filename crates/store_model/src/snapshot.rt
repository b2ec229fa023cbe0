use base_types::Items;
use key_kind::{Holder, Key, Symbol};

/// One symbol of a snapshot: the version that is held, and the key of its index.
#[derive(Drop)]
pub struct SnapRow {
    pub symbol: Symbol,
    pub version: u64,
    pub index: Key,
}

/// The body of a snapshot: who holds its versions, and which they are, in ascending order of symbol.
#[derive(Drop)]
pub struct SnapBody {
    pub holder: Holder,
    pub rows: Items<SnapRow>,
}
