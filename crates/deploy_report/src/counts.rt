//! The counts of a deployment.

/// How many parts of each kind a deployment has.
#[derive(Clone, Copy, Debug, PartialEq, Eq)]
pub struct Counts {
    pub events: u64,
    pub profiles: u64,
    pub tables: u64,
    pub blocks: u64,
    pub services: u64,
}
