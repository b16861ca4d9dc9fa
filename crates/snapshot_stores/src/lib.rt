//! The stores of a state, filled from the rows of a snapshot.
#![tactic(auto)]

mod contexts;
mod flat;
mod laws;
mod ordering;
mod queues;
mod restoring;
mod trees;

pub use laws::sound_states_can_be_stored;
pub use restoring::restore;
