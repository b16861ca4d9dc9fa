//! What a timer keeps of the occurrences that were missed.

/// Which missed occurrences of a timer are fired when the clock jumps over them.
#[derive(Debug, Clone, Copy, PartialEq, Eq)]
pub enum Keep {
    /// Each of them.
    All,
    /// The latest alone.
    Last,
    /// None but one that is due at the very moment.
    NoneMissed,
}
