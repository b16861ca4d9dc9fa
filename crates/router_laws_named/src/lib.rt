//! Laws of names: in every deployment the names in a snapshot lead back to what they stand for.
#![tactic(auto)]

mod parts;

pub use parts::deployments_without_fault_are_named;
