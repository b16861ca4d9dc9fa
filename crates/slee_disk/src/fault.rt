//! The failure of what lies outside the program.

use std::fs::TryLockError;
use std::{fmt, io};

/// The outside has failed. Its count of faults tells that it has.
#[derive(Clone, Copy, Debug, PartialEq, Eq)]
pub struct Failed;

impl fmt::Display for Failed {
    fn fmt<W: fmt::Write>(&self, f: &mut fmt::Formatter<W>) -> fmt::Result {
        write!(f, "input or output failed")
    }
}

impl std::error::Error for Failed {}

impl From<io::Error> for Failed {
    fn from(_: io::Error) -> Self {
        Failed
    }
}

impl From<TryLockError> for Failed {
    fn from(_: TryLockError) -> Self {
        Failed
    }
}
