//! The numbers that the next entity, activity and timer get.

/// The next numbers of entities, activities and timers.
#[derive(Debug, Clone, Copy, PartialEq, Eq)]
pub struct Next {
    pub entity: u64,
    pub activity: u64,
    pub timer: u64,
}
