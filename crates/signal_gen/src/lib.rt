//! Signal lines that a seed gives.
#![tactic(auto)]

mod course;
mod draw;
mod firing;
mod generating;

pub use generating::generate;
