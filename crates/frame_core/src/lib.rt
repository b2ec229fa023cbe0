//! Frames: a schema and rows with rising stamps, kept in memory column by column.
#![tactic(auto)]

mod appending;
mod cell;
mod column;
mod cutting;
mod frame;
mod joining;
mod limits;
mod maker;
mod making;
mod name;
mod part;
mod range;
mod raw;
mod refusal;
mod schema;
mod selecting;
mod text_parts;
mod texts;

pub use base_types::{Items, Keep, NoMemory, Text};
pub use cell::{Cell, CellRef, ColType};
pub use column::Column;
pub use cutting::{count_below, count_up_to};
pub use frame::Frame;
pub use maker::FrameMaker;
pub use name::{ColName, NameFault};
pub use part::Part;
pub use range::Range;
pub use raw::RawFrame;
pub use refusal::{Asked, Extent, Refusal, Refused};
pub use schema::Schema;
pub use selecting::place_of_name;
pub use texts::TextList;

/// The places of events, seen as a list.
pub type Places = Items<u64>;
