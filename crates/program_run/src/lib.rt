//! A run of the program: its words, its script and files, the replies, and what is printed of them.
#![tactic(auto)]

mod args;
mod prepare;
mod print;
mod script_run;
mod stop;
mod words;

pub use args::words_of;
pub use script_run::{Ran, run, run_stop};
pub use stop::{Halt, Stop};
