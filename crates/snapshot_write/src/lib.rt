//! The bytes of a whole state, as a snapshot in a journal has them.
#![tactic(auto)]

mod activities;
mod convergence;
mod entities;
mod events;
mod links;
mod names;
mod profiles;
mod services;
mod state;
mod timers;
mod values;

pub use state::{snapshot_text, write_state};
