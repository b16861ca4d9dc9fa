//! The fields of entities (JSR 240, chapter 6), each found by its entity and its name.
#![tactic(auto)]

mod fields;

pub use fields::Fields;
