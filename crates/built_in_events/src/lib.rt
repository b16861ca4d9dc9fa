//! The events that every deployment has and none declares: their names, and the fields that each has.
#![tactic(auto)]

mod built_in;

pub use built_in::BuiltInEvent;
