//! What lines do, as changes of a step while it is planned, with the lines that tell it. What they name was looked up before.
#![tactic(auto)]

mod acting;
mod clock;
mod counting;
mod rows;
mod services;
mod starting;
mod taking;

pub use acting::act;
pub use services::Keys;
pub use taking::take;
