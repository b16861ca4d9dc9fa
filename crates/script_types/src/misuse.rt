//! Why a script isn't well typed, and at which token.

/// Why a script isn't well typed.
#[derive(Clone, Copy, Debug, PartialEq, Eq)]
pub enum CheckBad {
    /// A name that is unknown, or a new name that is already visible.
    Name,
    /// A value of another type.
    Mismatch,
    /// Another number of arguments or fields.
    Count,
    /// Something that isn't allowed in such a script.
    Place,
}

/// The first fault of a script that can be read but isn't well typed.
#[derive(Clone, Copy, Debug, PartialEq, Eq)]
pub struct Misuse {
    /// How many tokens stand before it.
    pub at: usize,
    pub kind: CheckBad,
}
