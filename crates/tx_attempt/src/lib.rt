//! Attempts: deliveries over what was seen, beside the state, and whether that is seen still.
#![tactic(auto)]

mod attempt;
mod check;
mod copies;
mod laws;
mod same;
mod ticket;

pub use attempt::{Attempt, KNOWN_LIMIT, Progress};
pub use check::CheckStop;
pub use laws::{attempts_decide, what_conflicts_is_seen_otherwise, what_does_not_conflict_holds};
pub use ticket::Ticket;
