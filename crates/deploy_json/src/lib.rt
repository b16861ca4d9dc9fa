//! Deployments read from JSON: the document, its parts and its scripts, checked, or the first thing that is wrong with the bytes.
#![tactic(auto)]

mod block;
mod build;
mod checking;
mod document;
mod fault;
mod handler;
mod item;
mod parts_fault;
mod reading;
mod script;
mod value;

pub use checking::read_deployment;
pub use fault::ReadFault;
pub use handler_check::Checked;
pub use reading::read_parts;
