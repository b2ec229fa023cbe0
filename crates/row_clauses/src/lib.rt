//! The clauses of a read over a frame, row by row.
#![tactic(auto)]

mod applying;
mod grouping;
mod passing;
mod plan;
mod row;
mod running;

pub use applying::apply_clauses;
