//! Indices beside rows: numbers under keys with those of one key side by side, how often a number stands under a key, and the
//! number that a text is made into.
#![tactic(auto)]

mod counting;
mod entry;
mod moving;
mod number;
mod tally;

pub use counting::{count_one, uncount_one};
pub use entry::Entry;
pub use moving::move_entry;
pub use number::{number_of, number_with};
pub use tally::Tally;
