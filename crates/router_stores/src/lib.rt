//! The state of a service container in its stores: one change of one list at a time, in room that was made before.
#![tactic(auto)]

mod changing;
mod laws;
mod parts;
mod ready;
mod services;
mod stores;
mod table_specs;
mod tables;
mod widths;

pub use changing::change_each;
pub use laws::fitting_changes_can_be_made;
pub use parts::StoreParts;
pub use ready::Ready;
pub use stores::Stores;
pub use table_specs::specs_of;
