//! The sizes that the format of a journal fixes, and its limits, all in bytes.

/// The most that a side may come to have.
pub const SIDE_LIMIT: u64 = 268_435_456;

/// The most that a payload has.
pub const PAYLOAD_LIMIT: usize = 131_072;

/// How far below the most bytes that memory can hold a deployment stays, so that the size of its side is a number.
pub const DEPLOYMENT_MARGIN: usize = 64;

/// What a record has beside its payload: its gate and the payload's length.
pub const RECORD_FRAME: u64 = 5;

/// What stands before the first record beside the deployment and the snapshot: the first gate, the name of the format,
/// the generation and two lengths.
pub const HEADER_FRAME: u64 = 23;

/// What a side without records has beside the deployment and the snapshot: the same, and the last gate.
pub const SIDE_FRAME: u64 = HEADER_FRAME + 1;
