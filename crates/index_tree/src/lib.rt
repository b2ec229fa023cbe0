//! The index of a version: where the tiles of its frame lie, its bytes, and the tiles that a read wants.
#![tactic(auto)]

mod fault;
mod index;
mod laws;
mod lookup;
mod packed;
mod page;
mod reach;
mod reading;
mod slot_runs;
mod slot_text;
mod slot_view;
mod span;
mod writing;

pub use base_types::{Body, Items, Keep, NoMemory};
pub use fault::IndexFault;
pub use index::{Index, Slot};
pub use laws::one_spelling;
pub use lookup::{covered, covering};
pub use packed::{PackedIndex, open};
pub use page::{IndexObject, PageRow, Root};
pub use reading::read;
pub use slot_runs::SlotRuns;
pub use slot_text::SlotText;
pub use span::Span;
pub use writing::{build, build_packed};

/// The tiles of an index, in order of their first row and then of their first column, seen as a list.
pub type Slots = Items<Slot>;

/// The pages of a root, in order, seen as a list.
pub type PageRows = Items<PageRow>;
