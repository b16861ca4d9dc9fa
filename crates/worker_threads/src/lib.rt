//! Workers in threads of their own, which take turns on one container.
#![tactic(auto)]

mod jobs;
mod sharing;

pub use sharing::share;
