//! Records that were found on a side.

use crate::{Format, Stage};
use slee_disk::Side;
use slee_value::Blob;

/// A record that was found, and where its gate stands: `at` is a place in bytes on its side.
#[derive(Debug, Drop)]
pub struct Record {
    pub at: u64,
    pub payload: Blob,
}

/// Why the records of a side aren't read.
#[derive(Drop)]
pub(crate) enum RecordsFault {
    /// The record whose gate stands there runs past the end, or has no gate behind it.
    Short(u64),
    NoMemory,
}

/// What the two sides stand for.
#[derive(Drop)]
pub(crate) struct Found {
    pub stage: Stage,
    pub side: Side,
    pub format: Format,
    pub generation: u64,
    pub deployment: Blob,
    pub snapshot: Blob,
    pub records: Vec<Record>,
    /// The place of the last gate.
    pub end: u64,
}
