//! The state with which a step begins, in its stores, and what was deployed: each question of planning, answered exactly.
#![tactic(auto)]

mod base;
mod basis;
mod closing;
mod declared;
mod listing;
mod masking;
mod parting;
mod setting;

pub use basis::Basis;
