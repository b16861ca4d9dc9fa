//! Why no step is made, why the router stops, and why it isn't opened.

use commit_journal::JournalBad;
use slee_disk::Side;

/// Why no step is made, or why one that was made isn't acknowledged.
#[derive(Clone, Copy, Debug, PartialEq, Eq)]
pub enum StepFault {
    /// The disk failed. The step stands in the history and isn't acknowledged, and the container is stopped.
    DiskFault,
    /// The side has `length` bytes, and the record would add `adding`: more than the limit. The container is stopped.
    Full { length: u64, adding: u64 },
    /// The run has as many entries as it may have, or the state is used up. Nothing has changed.
    Spent,
    /// Nothing has changed.
    NoMemory,
}

/// Why a container is stopped.
#[derive(Clone, Copy, Debug, PartialEq, Eq)]
pub enum Stop {
    /// The disk failed in a step.
    DiskFault,
    /// A record had no room: the numbers are those of the step's refusal.
    Full { length: u64, adding: u64 },
    /// Its caller had no memory to go on.
    NoMemory,
}

/// Why a container isn't opened: the faults of the journal, with its numbers, in bytes. Only at `DiskFault` something may
/// have been written.
#[derive(Clone, Copy, Debug, PartialEq, Eq)]
pub enum OpenFault {
    DiskFault,
    BadJournal {
        side: Side,
        at: u64,
        kind: JournalBad,
    },
    OtherDeployment {
        kept_len: u64,
        first_difference: u64,
    },
    Full {
        length: u64,
        adding: u64,
    },
    NoMemory,
}
