//! Laws of suiting effects: what a delivery's effects name and refer to is as it was declared, and each of them applies.
#![tactic(auto)]

mod scripts;
mod typed;

pub use scripts::{effects_of_deliveries_apply, effects_of_scripts_are_typed};
pub use typed::typed_effects_apply;
