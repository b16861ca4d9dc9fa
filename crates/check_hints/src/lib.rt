//! Which types are found and wanted where an expression has another type than is asked for, told by putting expressions of each type there and checking the script again.
#![tactic(auto)]

mod checking;
mod deployed;
mod mismatch;
mod place;
mod printing;
mod samples;
mod splice;

pub use checking::{Finding, probe};
pub use deployed::types_told;
pub use mismatch::{MismatchHint, mismatch_hint};
pub use printing::types_text;
