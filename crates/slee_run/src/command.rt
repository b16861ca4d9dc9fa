//! The commands of the program.

/// What the words of the command line ask.
#[derive(Clone, Copy, Debug, PartialEq, Eq)]
pub enum Command {
    /// Read the deployment and print its counts.
    Check,
    /// Play the signal lines with so many workers, in so many entries at most.
    Play { workers: u64, steps: u64 },
    /// As play, behind the lines that the journal has.
    Resume { workers: u64, steps: u64 },
    /// Print the state that the journal has.
    Show,
    /// Write a snapshot to the other side of the journal.
    Compact,
    /// Print so many lines that a seed gives.
    Gen { seed: u64, count: u64 },
    /// Play the lines that a seed gives, and print a summary.
    Trial { seed: u64, count: u64 },
}
