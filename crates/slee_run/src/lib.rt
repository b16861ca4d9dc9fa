//! The top call: it reads what the words ask for, plays it over the journal, and writes the trace and the status.
#![tactic(auto)]

mod checking;
mod command;
mod delivering;
mod finishing;
mod generating;
mod laws;
mod many;
mod opening;
mod playing;
mod printing;
mod reading;
mod running;
mod starting;
mod status;
mod summing;
mod tending;
mod top;
mod totals;
mod twice;
mod words;

pub use command::Command;
pub use laws::{command_is_spelled, run_is_determined, spelled_is_command};
pub use many::Crew;
pub use starting::{crew_in, run, run_many};
pub use status::{Given, Status};
pub use top::run_one;
pub use twice::{Twice, play_twice};
pub use words::command_of;
