//! Why a signal line is refused.

/// Why a line is refused.
#[derive(Debug, Clone, Copy, PartialEq, Eq)]
pub enum Refusal {
    /// An external activity has this name already.
    Exists,
    UnknownActivity,
    /// The activity is Ending.
    Ending,
    UnknownEvent,
    UnknownService,
    /// The fields aren't those that are declared, each once.
    BadFields,
    /// The moment is before the clock.
    ClockBack,
    /// The line would fire too many occurrences of timers.
    TooMany,
    /// The service isn't Inactive.
    NotInactive,
    /// The service isn't Active.
    NotActive,
    UnknownTable,
    RowExists,
    NoRow,
    /// Another row of the table has a value that is to be unique.
    Duplicate,
}
