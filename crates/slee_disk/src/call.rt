//! The calls of a disk, as a disk in memory writes them down.

use crate::Side;
use slee_value::Blob;

/// What a call asks of a side.
#[derive(Debug, Drop)]
pub enum Act {
    /// To look at it: its length, or its bytes.
    Look,
    /// To write bytes at a place.
    Write(u64, Blob),
    /// To cut it to a length.
    Cut(u64),
    /// To make sure of what was written.
    Sync,
}

/// A call of a disk in memory.
#[derive(Debug, Drop)]
pub struct Call {
    pub side: Side,
    pub act: Act,
    pub failed: bool,
}
