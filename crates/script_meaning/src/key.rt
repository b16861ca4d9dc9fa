//! What a script asks of the state, one key for each thing that it can see.

use slee_value::{ActivityId, EntityId, Name, Text, TimerId};

/// What a script asks of the state.
#[derive(Debug, Drop)]
pub enum Key {
    /// The delivery that is next on the activity.
    Next(ActivityId),
    /// The entity's field of this name.
    Field(EntityId, Name),
    /// The entity's children under this relation.
    Children(EntityId, Name),
    Priority(EntityId),
    /// Whether the activity is there, and in which state.
    AcState(ActivityId),
    /// The activity's attribute of this key.
    Attr(ActivityId, Text),
    Attached(EntityId, ActivityId),
    /// The events that the entity masks on the activity.
    Mask(EntityId, ActivityId),
    /// The activity for which this name stands.
    Named(Text),
    /// The activity on which the timer stands.
    Timer(TimerId),
    /// The row of this name in the profile table of this name.
    Profile(Name, Text),
    /// The clock.
    Now,
    /// The activities to which the entity is attached.
    Activities(EntityId),
}
