//! Why a call left the rows of profile tables as they were.

/// What is wrong with a row, or with what is asked of it.
#[derive(Debug, Clone, Copy, PartialEq, Eq)]
pub enum RowFault {
    /// There is no table of this number.
    NoTable,
    /// The table has no such row.
    NoRow,
    /// The table has the row.
    RowExists,
    /// The attributes aren't those that are declared, each once and of its type.
    BadAttribute,
    /// The row at this place has a value that is to be unique.
    Duplicate { place: u64 },
}
