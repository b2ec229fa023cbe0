use crate::index::{Index, Slot};
use base_types::Items;
use frame_core::Schema;
use key_kind::Key;

/// A page as its root names it: its key, and the first and the last stamp of its slots.
#[derive(Drop)]
pub struct PageRow {
    pub key: Key,
    pub first: i64,
    pub last: i64,
}

/// The root of an index whose slots stand in pages.
#[derive(Drop)]
pub struct Root {
    /// The columns of the frame, which is timed.
    pub schema: Schema,
    /// How many rows the frame has.
    pub rows: u64,
    /// How many slots the pages have together.
    pub slots: u64,
    /// The pages, in order.
    pub pages: Items<PageRow>,
}

/// What is put under the key of an index: a whole index, the root of one, or a page of one.
#[derive(Drop)]
pub enum IndexObject {
    Flat(Index),
    Root(Root),
    Page(Items<Slot>),
}
