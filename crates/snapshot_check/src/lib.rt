//! Whether the rows of a snapshot are those of a well-formed state, list by list, each in a time that fits its length.
#![tactic(auto)]

mod closed;
mod differing;
mod distinct;
mod numbers;
mod ordered;
mod tops;
mod well;

pub use well::is_well;
