//! Laws of reading: a well-formed state that was read has the bytes of which it was read, and where no rows are read there is none.
#![tactic(auto)]

mod reading;

pub use reading::{what_is_not_held_is_not_restored, what_is_read_is_spelled};
