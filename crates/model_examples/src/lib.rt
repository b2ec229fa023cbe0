//! Worked examples of the law of the store and of the law of replies, as proofs alone: no crate stands on this one, and it has no calls.
#![tactic(auto)]
