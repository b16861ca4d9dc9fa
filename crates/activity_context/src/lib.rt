//! Activity contexts: activities with their attachments, attributes and names.
#![tactic(auto)]

mod activities;
mod attributes;
mod contexts;
mod externals;
mod fault;
mod filing;
mod links;
mod names;
mod numbered;
mod own_names;

pub use contexts::Contexts;
pub use fault::AcFault;
