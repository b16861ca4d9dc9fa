//! Deliveries: the handler of an event and its callbacks in one transaction, and what an entity says when it is removed.
#![tactic(auto)]

mod callback;
mod delivered;
mod delivery;
mod handling;
mod parting;
mod prepared;

pub use delivered::{Delivered, Step};
pub use delivery::deliver_outcome;
pub use handling::handles;
pub use parting::{LINES_LIMIT, OwnFields, last_words};
pub use prepared::PreparedDelivery;
