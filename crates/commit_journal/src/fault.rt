//! Why a journal isn't opened, begun or written.
ghost use Rattle.std.specs.Prelude.{◌≡◌};
ghost use Rattle.commit_journal.specs.Words.{kind_word};

use slee_disk::{Failed, Side};
use slee_value::NoMemory;
use std::alloc::AllocError;
use thiserror::Error;

/// What is wrong with the bytes of a journal.
#[derive(Clone, Copy, Debug, PartialEq, Eq)]
pub enum JournalBad {
    /// A side whose first gate is open can't be read up to its first record's gate.
    Header,
    /// A record runs past the end of its side, or has no gate behind it.
    Length,
    /// The two sides have one generation.
    Sides,
    /// A snapshot stands for no state.
    Snapshot,
    /// A payload is out of the grammar of records.
    Record,
    /// The choice of a payload can't be made there, or isn't kept as the router keeps it.
    Replay,
}

impl JournalBad {
    /// The word for it in messages.
    pub fn word(self) -> &'static str
        ensures { result.now ≡ kind_word self }
    {
        match self {
            JournalBad::Header => "header",
            JournalBad::Length => "length",
            JournalBad::Sides => "sides",
            JournalBad::Snapshot => "snapshot",
            JournalBad::Record => "record",
            JournalBad::Replay => "replay",
        }
    }
}

/// Why a journal isn't opened. `at` is a place in bytes on its side; `kept_len` is the length in bytes of the deployment
/// that is kept, and `first_difference` the first place at which the two differ, or the shorter one's length.
#[derive(Clone, Copy, Debug, PartialEq, Eq, Error)]
pub enum JournalFault {
    #[error("the disk failed")]
    DiskFault,
    #[error("the journal is damaged")]
    BadJournal {
        side: Side,
        at: u64,
        kind: JournalBad,
    },
    #[error("the journal was written for another deployment")]
    OtherDeployment {
        kept_len: u64,
        first_difference: u64,
    },
    #[error("out of memory")]
    NoMemory,
}

/// Why a side isn't begun. `adding` is the size in bytes that it would have; `length` is 0.
#[derive(Clone, Copy, Debug, PartialEq, Eq, Error)]
pub enum BeginFault {
    #[error("the disk failed")]
    DiskFault,
    #[error("the side would be longer than the limit")]
    Full { length: u64, adding: u64 },
    #[error("out of memory")]
    NoMemory,
}

/// A payload has no room: the side has `length` bytes with the batch, and the record would add `adding`.
#[derive(Clone, Copy, Debug, PartialEq, Eq)]
pub struct SideFull {
    pub length: u64,
    pub adding: u64,
}

/// Why a payload isn't taken. `length` is the size in bytes of the side with the batch, and `adding` what the record
/// would add.
#[derive(Clone, Copy, Debug, PartialEq, Eq, Error)]
pub enum AppendFault {
    #[error("the side would be longer than the limit")]
    Full { length: u64, adding: u64 },
    #[error("out of memory")]
    NoMemory,
}

impl From<NoMemory> for JournalFault {
    ghost use Rattle.std.specs.Prelude.{◌≡◌};
    ghost use Rattle.commit_journal.specs.declared.fault.JournalFault.TheVariants as faults;

    ghost from_gives = { λ _ fault. fault ≡ faults.NoMemory };

    fn from(_: NoMemory) -> Self {
        JournalFault::NoMemory
    }
}

impl From<AllocError> for JournalFault {
    ghost use Rattle.std.specs.Prelude.{◌≡◌};
    ghost use Rattle.commit_journal.specs.declared.fault.JournalFault.TheVariants as faults;

    ghost from_gives = { λ _ fault. fault ≡ faults.NoMemory };

    fn from(_: AllocError) -> Self {
        JournalFault::NoMemory
    }
}

impl From<Failed> for JournalFault {
    ghost use Rattle.std.specs.Prelude.{◌≡◌};
    ghost use Rattle.commit_journal.specs.declared.fault.JournalFault.TheVariants as faults;

    ghost from_gives = { λ _ fault. fault ≡ faults.DiskFault };

    fn from(_: Failed) -> Self {
        JournalFault::DiskFault
    }
}

impl From<NoMemory> for BeginFault {
    ghost use Rattle.std.specs.Prelude.{◌≡◌};
    ghost use Rattle.commit_journal.specs.declared.fault.BeginFault.TheVariants as faults;

    ghost from_gives = { λ _ fault. fault ≡ faults.NoMemory };

    fn from(_: NoMemory) -> Self {
        BeginFault::NoMemory
    }
}

impl From<Failed> for BeginFault {
    ghost use Rattle.std.specs.Prelude.{◌≡◌};
    ghost use Rattle.commit_journal.specs.declared.fault.BeginFault.TheVariants as faults;

    ghost from_gives = { λ _ fault. fault ≡ faults.DiskFault };

    fn from(_: Failed) -> Self {
        BeginFault::DiskFault
    }
}

impl From<NoMemory> for AppendFault {
    ghost use Rattle.std.specs.Prelude.{◌≡◌};
    ghost use Rattle.commit_journal.specs.declared.fault.AppendFault.TheVariants as faults;

    ghost from_gives = { λ _ fault. fault ≡ faults.NoMemory };

    fn from(_: NoMemory) -> Self {
        AppendFault::NoMemory
    }
}
