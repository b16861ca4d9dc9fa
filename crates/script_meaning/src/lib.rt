//! What a checked script means, over any answers to what it asks of the state.
#![tactic(auto)]

mod ids;
mod key;
mod outcome;
mod seen;
mod which;

pub use ids::Ids;
pub use key::Key;
pub use outcome::{Args, FailKind, Outcome};
pub use seen::{AcSeen, Seen};
pub use which::{Part, Which};
