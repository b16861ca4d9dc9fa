//! Laws of what was read: every deployment that was read is as the laws of runs ask it.
#![tactic(auto)]

mod readings;
mod texts;

pub use readings::{deployments_are_as_read, deployments_have_spelled_constants};
pub use texts::texts_of_json_are_utf8;
