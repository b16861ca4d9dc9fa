//! The limit of what the journal keeps of a step.

/// The most bytes that the payload of a step has.
pub const PAYLOAD_LIMIT: usize = 65_536;
