//! What is next on an activity, and on which activity something is.
#![tactic(auto)]

mod claims;
mod heads;
mod receiving;
mod selecting;

pub use claims::least;
pub use heads::{next, next_delivery};
pub use receiving::receiver;
pub use selecting::due_service;
