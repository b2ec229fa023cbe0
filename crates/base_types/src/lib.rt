//! What every crate shares: a list, a text, the bytes of an object, and want of memory.
#![tactic(auto)]

mod body;
mod items;
mod keep;
mod memory;
mod text;

pub use body::Body;
pub use items::Items;
pub use keep::Keep;
pub use memory::NoMemory;
pub use text::Text;
