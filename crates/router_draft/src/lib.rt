//! A step while it is planned: its changes and lines so far, and what is read of the state with these changes laid over it.
#![tactic(auto)]

mod after;
mod base;
mod changes;
mod draft;
mod laws;
mod lists;
mod making;
pub mod reading;
mod trees;

pub use base::Base;
pub use draft::Draft;
pub use laws::changes_keep_trees;
pub use making::change;
pub use trees::tree;
