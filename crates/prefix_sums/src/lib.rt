//! Numbers one behind another, with sums of blocks of them, so that the sum of the first ones is found in a few steps.
#![tactic(auto)]

mod counts;
mod level;
mod levels;
mod memory;

pub use counts::Counts;
