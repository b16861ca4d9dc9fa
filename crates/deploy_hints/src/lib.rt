//! What is told of bytes that are no deployment, beside the first fault: where JSON ends, what may stand where a script can't go on, and a sentence for each other kind.
#![tactic(auto)]

mod hint;
mod printing;
mod source;
mod words;

pub use hint::{Hint, hint_of};
pub use printing::hint_text;
