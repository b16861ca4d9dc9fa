//! The check of `call` and `fire`: the step that each is made into, or its first fault.
#![tactic(auto)]

mod arguments;
mod call;
mod fields;
mod fire;
mod lookup;

pub use call::check_call;
pub use fire::check_fire;
