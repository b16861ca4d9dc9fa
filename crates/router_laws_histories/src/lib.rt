//! Laws of the router over whole histories, proved of the definitions alone.
#![tactic(auto)]

mod heads;
mod once;
mod order;
mod priority;
mod restarts;
mod suspension;

pub use heads::other_steps_leave_the_head_event;
pub use once::events_reach_entities_once;
pub use order::events_are_finished_in_order;
pub use priority::deliveries_go_by_priority;
pub use restarts::restarts_take_each_line_once;
pub use suspension::suspended_events_are_left_alone;
