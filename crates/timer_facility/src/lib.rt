//! The timer facility: timers that rise by number, what of them is due at a moment, and their change as the clock comes there.
#![tactic(auto)]

mod due;
mod entries;
mod listing;
mod occurrences;
mod timer_rows;
mod timers;

pub use due::left_of;
pub use occurrences::{Due, DueFault, DueList, OCCURRENCE_LIMIT};
pub use timers::Timers;
