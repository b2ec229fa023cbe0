//! The text of replies: the line of each, and the lines of its rows, versions and symbols.
#![tactic(auto)]

mod frame_lines;
mod line;
mod outcome_text;
mod replies;

pub use frame_lines::{header_line, push_row};
pub use line::{push_end, push_text};
pub use outcome_text::{symbol_line, version_line};
pub use replies::{end_line, reply_line};
