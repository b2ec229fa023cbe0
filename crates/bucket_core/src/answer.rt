use base_types::{Body, Items};
use key_kind::Key;
use std::sync::Arc;

/// What stands under a key.
#[derive(Drop)]
pub struct Found {
    /// The body, where there is one.
    pub body: Option<Arc<Body>>,
    /// The number of events that the look has seen.
    pub place: u64,
    /// The place of the event that set the body, or 0.
    pub since: u64,
}

/// The stored keys that match, in order.
#[derive(Drop)]
pub struct Listed {
    pub keys: Items<Key>,
    /// The number of events that the look has seen.
    pub place: u64,
}

/// What a drop found.
#[derive(Clone, Copy)]
pub enum Dropped {
    /// The object, which is gone since this place.
    Gone { place: u64 },
    /// Nothing, at this place.
    Absent { place: u64 },
}

/// Why a call of a bucket is refused.
#[derive(Clone, Copy, Debug, PartialEq, Eq)]
pub enum StoreErr {
    NoMemory,
    /// The store failed; a change may stand or not.
    Fault,
    /// The store has so many events that it takes no more.
    Spent { count: u64 },
    /// The reference is another than was said; its Refer has this place, or 0.
    Moved { now: u64 },
    /// The name stands at this place.
    Taken { place: u64 },
    /// The name did not stand at this place.
    Missing { place: u64 },
}
