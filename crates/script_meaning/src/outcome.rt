//! How a run ends, and what it is given.
use slee_value::{ActivityId, Payload, Text};

/// Why a run fails.
#[derive(Debug, Clone, Copy, PartialEq, Eq)]
pub enum FailKind {
    Thrown,
    Overflow,
    ZeroDivisor,
    Budget,
    Gone,
    Ending,
    NotNull,
    Bound,
    Unbound,
    Detached,
    NoRow,
    Depth,
    Observed,
    Range,
    TooLong,
    TooMuch,
}

/// How a run ends.
#[derive(Debug, Clone, Copy, PartialEq, Eq)]
pub enum Outcome {
    Fine,
    Asked,
    Broken(FailKind),
}

/// What a script is given: the event's activity and fields, and the failure that a callback is told.
#[derive(Debug, Drop)]
pub struct Args {
    pub activity: ActivityId,
    pub fields: Payload,
    pub failure: Text,
}
