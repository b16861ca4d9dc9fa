//! Roots found by their service and by their convergence name, beside the stores of the state.
#![tactic(auto)]

mod changing;
mod filling;
mod finding;
mod listing;
mod names;
mod room;
mod roots;

pub use changing::change_both;
pub use roots::Roots;
