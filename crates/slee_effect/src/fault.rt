//! Why bytes are no list of effects.

/// Why no list of effects was read.
#[derive(Clone, Copy, Debug, PartialEq, Eq)]
pub enum EffectFault {
    /// The bytes are no list: `at` is the first byte that can't go on, or how many there are where they end
    /// too early. In an event's fields a name can't go on where it can't rise above the one before.
    Bad { at: usize },
    NoMemory,
}
