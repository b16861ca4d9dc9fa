//! What several steps do, as changes of a step while it is planned, with the lines that tell it.
#![tactic(auto)]

mod creating;
mod linking;
mod queueing;
mod removing;
mod resuming;
mod setting;

pub use creating::set_first_fields;
pub use linking::{attach, detach};
pub use queueing::{end, queue};
pub use removing::{remove_members, remove_tree};
pub use resuming::{resume, suspend};
pub use setting::Setting;
