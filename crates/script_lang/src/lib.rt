//! Scripts and files of frames, read from their bytes.
#![tactic(auto)]

mod client;
mod command;
mod draft;
mod fault;
mod header;
mod lines;
mod load;
mod moment;
mod name;
mod number;
mod options;
mod plain_file;
mod plain_word;
mod rows;
mod script;

pub use base_types::{Items, NoMemory, Text};
pub use client::ClientPart;
pub use command::Commands;
pub use expr_clause::{AsOf, Command};
pub use fault::{CsvFault, ScriptFault};
pub use frame_core::{ColName, ColType, Range, RawFrame};
pub use key_kind::Symbol;
pub use load::{ColTypes, Load, Loads};
pub use number::digits_of;
pub use plain_file::read_frame;
pub use script::{ClientParts, Script, read_script};
