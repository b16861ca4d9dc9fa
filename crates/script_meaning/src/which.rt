//! Which of a block's scripts is run.
/// A script of a block.
#[derive(Debug, Clone, Copy, PartialEq, Eq)]
pub enum Part {
    /// The handler in this place of the block's list.
    On(u32),
    Exception,
    RolledBack,
    Remove,
}

/// Which script is run.
#[derive(Debug, Clone, Copy, PartialEq, Eq)]
pub struct Which {
    pub block: u32,
    pub part: Part,
}
