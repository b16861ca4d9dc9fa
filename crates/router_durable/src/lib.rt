//! The router of a deployment over a journal: each step is kept before it counts, and what a restart recovers.
#![tactic(auto)]

mod compacting;
mod dropping;
mod fault;
mod limits;
mod opening;
mod planning;
mod replaying;
mod stepping;

pub use fault::{OpenFault, StepFault, Stop};
pub use limits::BATCH_LIMIT;
pub use stepping::Core;
