//! What scripts read of the state, with the effects so far laid over the answers that were kept.
#![tactic(auto)]

mod activities;
mod answers;
mod counts;
mod effects;
mod fields;
mod lists;
mod masks;
mod numbers;
mod refs;
mod rows;
mod standing;
mod things;

pub use activities::{state_of, used, used_active};
pub use counts::count_children;
pub use fields::{attribute, attribute_scalar, field, field_scalar};
pub use lists::{attached_activities, children};
pub use masks::is_masked;
pub use numbers::{now, priority};
pub use rows::{has_profile, profile_value};
pub use standing::{attached, named, named_in, timer};
pub use things::{Thing, count_made, made_by, next_number};
