//! What is to be delivered.
use router_state::Event;
use slee_value::{ActivityId, EntityId};

/// A delivery that is claimed: of which event, on which activity, to which entity of which block.
#[derive(Debug, Drop)]
pub struct Ticket {
    pub number: u64,
    pub activity: ActivityId,
    pub event: Event,
    pub entity: EntityId,
    /// The number of the entity's block.
    pub block: u32,
}
