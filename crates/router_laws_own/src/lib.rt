//! Laws of what runs read: at every key it is what is there once their own effects are done, in each delivery of a legal history.
#![tactic(auto)]

mod deliveries;
mod keys;

pub use deliveries::deliveries_read_what_they_wrote;
pub use keys::keys_are_read_as_written;
