//! Laws of constants: those of checked scripts have spellings.
#![tactic(auto)]

mod constants;

pub use constants::{constants_of_programs_have_spellings, constants_of_scripts_have_spellings};
