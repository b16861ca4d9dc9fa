//! Workers on one container: each runs the handlers of deliveries outside the turn, by a gate, and makes steps under it.
#![tactic(auto)]

mod gate;
mod hand;
mod keys;
mod moving;
mod recall;
mod settling;
mod trying;
mod working;

pub use gate::{Gate, OpenGate};
pub use hand::{Hand, Worked, Worker};
pub use working::work;
