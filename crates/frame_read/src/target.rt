use key_kind::{Key, Symbol};

/// The version that a read takes.
#[derive(Drop)]
pub struct Target {
    pub symbol: Symbol,
    pub version: u64,
    /// The key of the version's index.
    pub index: Key,
    /// The number of events that the look has seen which found the version.
    pub place: u64,
}
