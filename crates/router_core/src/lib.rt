//! The router of any deployment: what is next, what a step changes and tells, and the step made in memory that was taken before.
#![tactic(auto)]

mod applying;
mod attempting;
mod choosing;
mod fault;
mod planning;
mod selecting;
mod sight;
mod snapshots;
mod state;

pub use fault::StateFault;
pub use router_plans::Plan;
pub use sight::Sight;
pub use state::State;
