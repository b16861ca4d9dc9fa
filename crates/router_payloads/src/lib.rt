//! What the journal keeps of a step, in both formats: its bytes, and the choice that is read back from them.
#![tactic(auto)]

mod fitting;
mod laws;
mod outcomes;
mod reading;
mod writing;

pub use fitting::check_effects;
pub use laws::payloads_are_read_back;
pub use outcomes::outcome_byte;
pub use reading::choice_in;
pub use writing::{write_clock, write_delivering, write_finishing, write_selecting, write_taking};
