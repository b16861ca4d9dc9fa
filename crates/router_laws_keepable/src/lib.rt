//! Laws of what was read: its names are names, and the states of every deployment that was read can be kept.
#![tactic(auto)]

mod reading;

pub use reading::{deployments_can_be_kept, deployments_have_names};
