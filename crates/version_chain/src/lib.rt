//! The chain of versions of a symbol: its elements and snapshots as bytes, the walk along it, and the law under which clients add
//! to a store.
#![tactic(auto)]

mod collecting;
mod elements;
mod fault;
mod fields;
mod law;
mod laws;
mod looking;
mod marking;
mod marks;
mod pieces;
mod snapshots;
mod state;
mod tip;
mod walking;

pub use base_types::NoMemory;
pub use elements::{entry_bytes, entry_read};
pub use fault::EntryFault;
pub use law::StoreLaw;
pub use laws::{elements_have_one_spelling, snapshots_have_one_spelling};
pub use marking::{mark_on, refused_by};
pub use snapshots::{snap_bytes, snap_read};
pub use state::SymbolState;
pub use tip::{ChainTip, walk_tip};
pub use walking::walk;
