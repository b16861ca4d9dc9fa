//! Why a script can't be read, in words: what stands at its first fault, and what may stand there.
#![tactic(auto)]

mod choice;
mod expected;
mod following;
mod shortening;
mod syntax;

pub use choice::{Choice, Group};
pub use expected::{Expected, expected_at};
pub use following::can_follow;
pub use syntax::{Found, SyntaxHint, syntax_hint};
