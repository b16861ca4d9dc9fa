//! Rows that rise by their keys, in leaves of some rows each, so that a row comes and goes at the cost of one leaf.
#![tactic(auto)]

mod behind;
mod changing;
mod cutting;
mod joining;
mod leaf;
mod leaves;
mod putting;
mod reading;
mod runs;
mod search;
mod share;
mod spares;
mod splitting;

pub use leaves::Leaves;
pub use runs::Run;
