//! What the usage lines of a history add up to.
#![tactic(auto)]

mod lines;
mod total;
mod totals;
mod usage;

pub use lines::first_line;
pub use total::Total;
pub use totals::{Totals, usage_totals};
