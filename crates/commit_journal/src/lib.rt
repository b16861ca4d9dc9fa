//! A journal on two sides of a disk, whose batches are whole or absent after any crash.
#![tactic(auto)]

mod batch;
mod blank;
mod fault;
mod format;
mod gate;
mod heading;
mod journal;
pub mod laws;
mod limits;
mod reading;
mod record;
mod recovery;
mod stage;
mod start;
mod writing;

pub use fault::{AppendFault, BeginFault, JournalBad, JournalFault, SideFull};
pub use format::Format;
pub use journal::Journal;
pub use limits::{
    DEPLOYMENT_MARGIN, HEADER_FRAME, PAYLOAD_LIMIT, RECORD_FRAME, SIDE_FRAME, SIDE_LIMIT,
};
pub use record::Record;
pub use stage::Stage;
