//! What closes a step while it is planned: roots in whose trees nothing is attached go, Stopping services without a tree are Inactive, and null activities that aren't in use end. Only what the step touched is looked at.
#![tactic(auto)]

mod activities;
mod births;
mod closing;
mod in_use;
mod numbers;
mod roots;
mod services;
mod setting;
mod timers;
mod touched;

pub use closing::close;
pub use setting::Closing;
