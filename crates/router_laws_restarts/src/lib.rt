//! Laws of restarts: what a restart gives is what a legal history left, it is well formed, and the laws of runs hold of what goes on from it.
#![tactic(auto)]

mod restarts;
mod runs;

pub use restarts::restarts_are_well_formed;
pub use runs::runs_over_restarts_keep_the_laws;
