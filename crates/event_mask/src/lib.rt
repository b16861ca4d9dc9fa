//! The event masks of attachments (JSR 240, 8.4), each found by its activity, its entity and its event.
#![tactic(auto)]

mod masks;

pub use masks::Masks;
