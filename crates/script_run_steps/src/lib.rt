//! What steps without blocks do: each as the meaning of scripts says, over the answers that were kept.
#![tactic(auto)]

mod activities;
mod assigning;
mod attaching;
mod entities;
mod firing;
mod flow;
mod holding;
mod names;
mod naming;
mod ranges;
mod sayings;
mod timers;

pub use activities::do_on_activities;
pub use assigning::{assign_at_hand, do_assigning};
pub use entities::do_on_entities;
pub use flow::Flow;
pub use ranges::LAST_MOMENT;
pub use sayings::do_saying;
pub use timers::do_on_timers;
