//! Laws of deployments that were read: what holds of each of them.
#![tactic(auto)]

mod asked;
mod order;
mod reading;

pub use asked::{deployments_are_as_asked, priorities_of_relations_lie_in_their_range};
pub use order::declared_fields_rise;
pub use reading::{deployments_are_programmed, deployments_have_their_program};
