//! A value that several threads take in turns: it keeps its setup, and its history only grows.
#![tactic(auto)]

mod grows;
mod pass;
mod steps;
mod turn;
mod turnstile;

pub use grows::Grows;
pub use pass::Pass;
pub use turn::Turn;
pub use turnstile::Turnstile;
