//! Work in tasks, which threads pull from a queue; the results come in the order of the tasks.
#![tactic(auto)]

mod given;
mod order;
mod pulling;
mod run;
mod threads;
mod turns;
mod work;

pub use run::run_tasks;
pub use work::Work;
