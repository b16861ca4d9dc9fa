//! What a line is about: all that it names is looked up once in the state and in the deployment, or the first reason for which it is refused is found.
#![tactic(auto)]

mod action;
mod clock;
mod firing;
mod inputs;
mod lookups;
mod order;
mod rows;
mod services;
mod values;

pub use action::{Action, RowChange};
pub use inputs::action_of;
pub use order::are_fields_in_order;
