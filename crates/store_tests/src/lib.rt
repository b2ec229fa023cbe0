//! Tests of the calls over a bucket, and of what they stand on, that no script can make: with faults, full stores, counts of gets,
//! looks at what is stored, and reads with clauses.
#![tactic(auto)]

#[cfg(test)]
mod asks;
#[cfg(test)]
mod choices;
#[cfg(test)]
mod links;
#[cfg(test)]
mod queries;
#[cfg(test)]
mod steps;
#[cfg(test)]
mod stores;
