//! The numbers of entities, activities, timers and events.

/// The number of an entity. Entities are numbered from 1, and no number is used twice; 0 is no entity.
#[derive(Debug, Clone, Copy, PartialEq, Eq)]
pub struct EntityId(pub u64);

/// The number of an activity. Activities are numbered from 1, and no number is used twice; 0 is no activity.
#[derive(Debug, Clone, Copy, PartialEq, Eq)]
pub struct ActivityId(pub u64);

/// The number of a timer. Timers are numbered from 1, and no number is used twice; 0 is no timer.
#[derive(Debug, Clone, Copy, PartialEq, Eq)]
pub struct TimerId(pub u64);

/// The number of an event that was fired. Events are numbered from 1, and no number is used twice.
#[derive(Debug, Clone, Copy, PartialEq, Eq)]
pub struct EventId(pub u64);
