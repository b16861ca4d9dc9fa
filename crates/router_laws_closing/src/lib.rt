//! Laws of closing: after changes of a closed state only what they touched is to be looked at. And a tree goes by changes that keep trees.
#![tactic(auto)]

mod activities;
mod closed;
mod lists;
mod roots;
mod touched;
mod trees;

pub use activities::only_released_activities_end;
pub use closed::closing_closes;
pub use lists::rising_lists_meet;
pub use roots::{only_freed_roots_are_loose, only_loose_roots_go};
pub use touched::{only_touched_activities_close, only_touched_roots_close};
pub use trees::{
    changes_keep_entities_numbered, changes_that_fit_keep_trees,
    trees_go_by_changes_that_keep_trees,
};
