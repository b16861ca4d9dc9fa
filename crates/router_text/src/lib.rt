//! The texts of the lines that a trace has.
#![tactic(auto)]

mod headings;
mod line;
mod telling;
mod words;

pub use headings::{deliver, finish, initial, initial_none, input};
pub use telling::{
    attached, created, detached, ending, gone, queued, removed, resumed, said, service, started,
    suspended, timer, usage,
};
pub use words::{exception, refused, rolled_back};
