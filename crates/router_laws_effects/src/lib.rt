//! Laws of effects: what a run sees of its own effects is what is there once they are done, and each is made where it may be.
#![tactic(auto)]

mod guards;
mod own_writes;

pub use guards::{effects_are_guarded, used_activities_are_active};
pub use own_writes::activities_are_read_as_written;
