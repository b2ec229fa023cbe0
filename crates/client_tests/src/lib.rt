//! Clients at work on one store, one of which acts at a chosen step of another.
#![tactic(auto)]

#[cfg(test)]
mod asks;
#[cfg(test)]
mod gaps;
#[cfg(test)]
mod meanwhile;
#[cfg(test)]
mod meeting;
#[cfg(test)]
mod numbers;
#[cfg(test)]
mod reading_beside;
#[cfg(test)]
mod turns;
