//! Laws of snapshots: the bytes of a well-formed state are read back as it, and they tell it from every other.
#![tactic(auto)]

mod snapshots;
mod tests;
mod texts;

pub use snapshots::{
    restored_states_have_their_bytes, snapshots_are_read_back, snapshots_tell_states_apart,
};
pub use tests::tests_in_one_say_the_same;
pub use texts::{snapshot_texts_are_read_back, snapshot_texts_tell_states_apart};
