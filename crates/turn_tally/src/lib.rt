//! A total that several threads add to, over one cell.
#![tactic(auto)]

mod adding;
mod mark;
mod seats;
mod tally;
mod threads;

pub use adding::{add, add_list, total};
pub use mark::Mark;
pub use seats::{merge, open, share};
pub use tally::Tally;
pub use threads::{add_each, two};
