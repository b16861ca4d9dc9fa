//! Laws of well-formed states: moves and effects keep each part sound.
#![tactic(auto)]

mod effects;
mod moves;

pub use effects::effects_keep_states_sound;
pub use moves::moves_keep_states_sound;
