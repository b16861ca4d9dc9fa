//! What terms of checked scripts give, with the units that they take: each as the meaning of scripts says, over the answers that were kept.
#![tactic(auto)]

mod asked_activities;
mod asked_names;
mod asked_rows;
mod asked_timers;
mod at_hand;
mod atoms;
mod chains;
mod joins;
mod numbers;
mod questions;
mod terms;
mod typed;

pub use asked_names::activity_value;
pub use at_hand::calculated_at_hand;
pub use numbers::eval_truth;
pub use terms::{eval, eval_calculated, eval_joined, is_calculated, is_joined};
pub use typed::{eval_activity, eval_int, eval_text, eval_timer};
