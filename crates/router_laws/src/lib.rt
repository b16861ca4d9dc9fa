//! Laws that show that the definitions of the state and of steps hang together. Each is proved of the definitions alone.
#![tactic(auto)]

mod closing;
mod histories;
mod lists;
mod paths;
mod rows;
mod steps;
mod trees;

pub use closing::closing_leaves_closed_states;
pub use histories::{histories_go_on, steps_keep_the_deployment};
pub use lists::{changes_keep_the_lists_rising, orders_go_on};
pub use paths::paths_are_in_one_order;
pub use rows::{
    lines_are_refused, paths_go_by_priority, rules_give_names, services_select_by_priority,
    timers_fire_by_their_keeping,
};
pub use steps::{refused_lines_are_counted, suspended_events_wait};
pub use trees::trees_are_whole;
