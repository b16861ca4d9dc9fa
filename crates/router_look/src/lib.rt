//! What is seen of the state at each key.
#![tactic(auto)]

mod copying;
mod keys;
mod rows;

pub use keys::look;
