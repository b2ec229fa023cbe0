//! Tests of the buckets and of the bytes of a chain, through their public functions: a crate with tests of its own is proved twice,
//! and those below are large.
#![tactic(auto)]

#[cfg(test)]
mod buckets;
#[cfg(test)]
mod elements;
