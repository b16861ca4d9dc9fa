//! What is said of bytes that are read as a deployment: how many parts of each kind it has, or what is wrong with them.
#![tactic(auto)]

mod counting;
mod counts;
mod printing;
mod words;

pub use counting::count_deployment;
pub use counts::Counts;
pub use printing::{write_counts, write_fault};
