//! Which of the entities that are attached to an activity receives its head event next (JSR 240, 8.4).
#![tactic(auto)]

mod cutting;
mod inserting;
mod laying;
mod listing;
mod moving;
mod next;
mod order;
mod placed;
mod ready;
mod received;
mod spreading;
mod wants;

pub use next::next_entity;
pub use order::Order;
pub use received::Received;
pub use wants::{Head, Wants};
