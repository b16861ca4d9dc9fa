//! Runs of the whole program over objects in memory, for the crates of tests that play them: one run, and one call with its text.
#![tactic(auto)]

pub mod one_call;
pub mod prepaid;
pub mod running;
