//! Tests of the clauses of a read, through their public calls.
#![tactic(auto)]

#[cfg(test)]
mod checks;
#[cfg(test)]
mod limits;
#[cfg(test)]
mod running;
#[cfg(test)]
mod values;
