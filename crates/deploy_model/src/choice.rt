//! The words of initial event selection (JSR 240, 8.5).

/// A variable by which the root of an initial event is selected.
#[derive(Debug, Clone, Copy, PartialEq, Eq)]
pub enum Variable {
    Activity,
    Address,
    EventType,
    Event,
    Custom,
}

/// A rule of custom selection.
#[derive(Debug, Clone, Copy, PartialEq, Eq)]
pub enum SelectRule {
    Whole,
    Digits3,
    Scheme,
    Screened,
}
