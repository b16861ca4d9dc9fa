//! Readers of names, texts, words and signs, of expressions, and of lists of these.
#![tactic(auto)]

mod levels;
mod lists;
mod named;
mod query;
mod refusal;
mod take;

pub use crate::levels::{before, boxed, boxed_before, expression};
pub use crate::lists::{arguments, fields};
pub use crate::refusal::{ReadError, too_deep, unexpected};
pub use crate::take::{behind, close, name, open, over, text, want, who};
