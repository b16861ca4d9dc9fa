//! What is answered to a key.

use crate::Ids;
use slee_value::{ActivityId, EntityId, EventId, Names, Payload, Value};

/// What is seen of an activity that is there.
#[derive(Debug, Clone, Copy, PartialEq, Eq)]
pub struct AcSeen {
    /// Whether it is a null activity.
    pub null: bool,
    pub ending: bool,
}

/// What is seen at a key.
#[derive(Debug, Drop)]
pub enum Seen {
    /// The event and the entity of the next delivery.
    Next(Option<(EventId, EntityId)>),
    /// The value of a field, or of an attribute that was set.
    Held(Option<Value>),
    Ids(Ids),
    Number(i64),
    Ac(Option<AcSeen>),
    Flag(bool),
    Masks(Option<Names>),
    /// The activity on which a name or a timer stands.
    Refers(Option<ActivityId>),
    /// The attributes of a profile's row.
    Row(Option<Payload>),
}
