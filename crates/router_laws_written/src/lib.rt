//! Laws of own writes: what a run reads, its own effects laid over, is what is there once they are done.
#![tactic(auto)]

mod activities;
mod entities;
mod timers;

pub use activities::attributes_are_read_as_written;
pub use entities::{
    activities_of_entities_are_read_as_written, fields_are_read_as_written,
    masks_are_read_as_written, priorities_are_read_as_written,
};
pub use timers::timers_are_read_as_written;
