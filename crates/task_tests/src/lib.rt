//! Work in tasks, carried out by threads that pull from a queue.
#![tactic(auto)]

#[cfg(test)]
mod beside;
#[cfg(test)]
mod calls;
#[cfg(test)]
mod counted;
