//! The check of deployments: the program that all scripts are made into, or the first fault with its place.
#![tactic(auto)]

mod block;
mod code_fault;
mod deployment;
mod events;
mod fault;
mod making;
mod path;
mod program;
mod task;

pub use deployment::{Checked, check};
pub use fault::CheckFault;
pub use script_types::CheckBad;
