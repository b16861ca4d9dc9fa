//! SBB entities and their trees (JSR 240, chapter 6): an entity is found by its number, children are found by their parent, and a tree is listed in the order in which it goes.
#![tactic(auto)]

mod branch;
mod depths;
mod growing;
mod paths;
mod reading;
mod removal;
mod tree;

pub use tree::Tree;
