//! What the show command prints of a state.
#![tactic(auto)]

mod byte_order;
mod contexts;
mod entities;
mod events;
mod keys;
mod profiles;
mod services;
mod text;
mod timers;
mod words;

pub use byte_order::{names_in_order, rows_in_order};
pub use keys::{block_key, service_key, table_name};
pub use text::show;
