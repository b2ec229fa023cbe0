//! The events of a store, what they leave in it, and the store as one client sees it.
#![tactic(auto)]

mod answer;
mod body;
mod bucket;
mod contents;
mod counting;
mod entry;
mod event;
mod event_log;
mod flaky;
mod gate;
mod gated;
mod head;
mod law;
mod plain;

pub use answer::{Dropped, Found, Listed, StoreErr};
pub use base_types::{Body, Items, Keep, NoMemory};
pub use body::SharedBody;
pub use bucket::Bucket;
pub use contents::Contents;
pub use counting::Counting;
pub use event::{Change, Event, PieceName, SharedChanges};
pub use flaky::{Flaky, When};
pub use gate::{Gate, GatePoint, OpenGate, Step};
pub use gated::Gated;
use key_kind::Key;
pub use law::Law;
pub use plain::PlainBucket;

/// Numbers of versions, seen as a list.
pub type Numbers = Items<u64>;

/// Names of staged pieces, seen as a list.
pub type Pieces = Items<PieceName>;

/// The changes of one commit, seen as a list.
pub type Changes = Items<Change>;

/// Keys, seen as a list.
pub type Keys = Items<Key>;
