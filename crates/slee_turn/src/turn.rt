//! The answer of one try for the turn.

/// The answer of one try for the turn.
#[derive(Drop)]
pub enum Turn<G> {
    /// The turn was free. It is taken, and this is the value.
    Taken(G),
    /// The pass of this number has the turn.
    Busy { holder: u64 },
}
