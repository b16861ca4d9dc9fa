//! What a run leaves: its choices with the lines that they gave, in order, and their text.
#![tactic(auto)]

mod choice;
mod entry;
mod history;
mod lines;

pub use choice::Choice;
pub use entry::Entry;
pub use history::History;
pub use lines::Lines;
