//! What a run came to, and the number that the process ends with.
use commit_journal::JournalBad;
use deploy_json::ReadFault;
use signal_script::SignalBad;
use slee_disk::Side;

/// Of which source something is said.
#[derive(Clone, Copy, Debug, PartialEq, Eq)]
pub enum Given {
    Deploy,
    Signals,
}

/// What a run came to.
#[derive(Debug, Drop)]
pub enum Status {
    /// All is done.
    Ok,
    /// The words are of no form, or a number is out of range.
    BadWords,
    /// The deployment or the signals couldn't be read.
    ReadFault,
    /// The bytes of the deployment are none; this is the first thing that is wrong with them, and never want of memory.
    BadDeploy(ReadFault),
    /// This signal line, lines being counted from 1, is the first that is none of the grammar.
    BadSignals {
        line: u64,
        kind: SignalBad,
    },
    /// The text couldn't be written whole.
    WriteFault,
    /// The disk failed. What it keeps is known once it is opened again.
    DiskFault,
    /// The disk has no journal: this is wrong at this place, in bytes.
    BadJournal {
        side: Side,
        at: u64,
        kind: JournalBad,
    },
    /// The journal was written for a deployment of so many bytes, which differs from this one at this place.
    OtherDeployment {
        kept_len: u64,
        first_difference: u64,
    },
    /// A side of this length in bytes has no room for so many more.
    Full {
        length: u64,
        adding: u64,
    },
    /// So many entries were made, as many as the words allow, and more would be left; or the state is used up.
    StepsSpent {
        entries: u64,
    },
    /// Memory ran out.
    NoMemory,
    /// A source gave more than its limit.
    TooLarge {
        what: Given,
    },
}

impl Status {
    ghost use Rattle.std.specs.Prelude.{◌≡◌};
    ghost use Rattle.slee_run.specs.Status.{code_of};

    /// The number that the process ends with.
    pub fn code(&self) -> u8
        ensures { result ≡ code_of self.now }
    {
        match self {
            Status::Ok => 0,
            Status::BadWords => 2,
            Status::ReadFault => 3,
            Status::BadDeploy(_) => 4,
            Status::BadSignals { .. } => 5,
            Status::WriteFault => 6,
            Status::DiskFault => 7,
            Status::BadJournal { .. } => 8,
            Status::OtherDeployment { .. } => 9,
            Status::Full { .. } => 10,
            Status::StepsSpent { .. } => 11,
            Status::NoMemory => 12,
            Status::TooLarge { .. } => 13,
        }
    }
}
