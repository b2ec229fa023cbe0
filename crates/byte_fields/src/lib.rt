//! Fields of bytes: read from the front with the place of the first fault, and written at the end.
#![tactic(auto)]

mod laws;
mod reader;
mod writer;

pub use base_types::NoMemory;
pub use laws::{read_fields_were_spelled, spelled_fields_are_read};
pub use reader::{read_bytes, read_i64, read_magic, read_u8, read_u16, read_u32, read_u64};
pub use writer::{put_bytes, put_i64, put_u8, put_u16, put_u32, put_u64};
