//! Frames as bytes: the one spelling of each, and views that read it where it lies.
#![tactic(auto)]

mod cells;
mod column_view;
mod columns;
mod copying;
mod heads;
mod laws;
mod named_column;
mod sheet;
mod viewing;
mod writing;

pub use column_view::ColumnView;
pub use heads::{put_head, read_head, read_text, read_type, type_byte};
pub use laws::one_spelling;
pub use named_column::NamedColumn;
pub use viewing::{SegFault, SegView, view, view_spelled};
pub use writing::encode;
