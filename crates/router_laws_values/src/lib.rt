//! Laws of values: what expressions of scripts give, and what effects have, has a spelling.
#![tactic(auto)]

mod values;

pub use values::{
    texts_of_failures_are_texts, values_of_effects_have_a_spelling,
    values_of_expressions_have_a_spelling,
};
