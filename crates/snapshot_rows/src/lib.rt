//! The rows of a state as a snapshot has them: plain lists, whose places are those of the state's own lists.
#![tactic(auto)]

mod rows;

pub use rows::Rows;
