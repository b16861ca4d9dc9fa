//! Laws of effects at their turns: each effect of a delivery applies.
#![tactic(auto)]

mod own_writes;
mod turns;

pub use own_writes::names_are_read_as_written;
pub use turns::{effects_are_seen_as_done, effects_that_apply_are_all_done, guarded_effects_apply};
