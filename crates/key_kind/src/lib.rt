//! Names of symbols and of snapshots, and the keys of a store.
#![tactic(auto)]

mod key;
mod key_bytes;
mod key_view;
mod name;

pub use base_types::{Items, Keep, NoMemory, Text};
pub use key::{Holder, Key, KeyKind};
pub use key_bytes::{KeyFault, no_key_begins_another, put_key, spelled_keys_are_read};
pub use key_view::{KeyView, view_key, view_key_of, view_name};
pub use name::{Name, NameFault, SnapName, Symbol};

/// Symbols, seen as a list.
pub type Symbols = Items<Symbol>;
