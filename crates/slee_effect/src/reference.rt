//! References to entities, activities and timers, those of the same list of effects included.

/// Names an entity, an activity or a timer.
#[derive(Debug, Clone, Copy, PartialEq, Eq)]
pub enum Ref {
    /// The one that has this number.
    Known(u64),
    /// The one that is created in the same list of effects, counted from 0 among those of its kind.
    Fresh(u32),
}
