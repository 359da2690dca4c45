//! Laws alone: what tests and options come to, for the proofs of the crates above.
#![tactic(auto)]
