//! When a batch of records is written, and how payloads begin.

/// A step writes the batch where it then has this many bytes or more.
pub const BATCH_LIMIT: u64 = 131_072;

/// How many bytes of a payload of the second format stand before what the first format has: those of the clock.
pub(crate) const CLOCK_LEN: usize = 8;

/// How many bytes stand before the line in a payload of the first format: its kind, and the line's length.
pub(crate) const INPUT_FRAME: usize = 5;
