//! What stays the same each time that a delivery is run.
ghost use Rattle.std.specs.Prelude.{◌≡◌, [], IfOk};

use router_state::Event;
use script_meaning::Args;
use slee_value::{ActivityId, EntityId, NoMemory, Text};
use std::alloc::Global;

/// A delivery of an event to an entity that is to be run, perhaps more than once.
#[derive(Debug, Drop)]
pub struct PreparedDelivery {
    pub(crate) block: u32,
    pub(crate) entity: EntityId,
    pub(crate) event: Text,
    /// Those of the handler.
    pub(crate) arguments: Args,
    ghost unfailed: { arguments.failure ≡ [] },
}

impl PreparedDelivery {
    /// The delivery of an event on an activity to an entity of the block of this number.
    pub fn new(
        alloc: Global,
        block: u32,
        entity: EntityId,
        activity: ActivityId,
        event: &Event,
    ) -> Result<Self, NoMemory>
        ensures block { IfOk result (λ d. d.block ≡ block) }
        ensures entity { IfOk result (λ d. d.entity ≡ entity) }
        ensures activity { IfOk result (λ d. d.arguments.activity ≡ activity) }
        ensures event { IfOk result (λ d. d.event ≡ event.now.name) }
        ensures fields { IfOk result (λ d. d.arguments.fields ≡ event.now.fields) }
    {
        Ok(PreparedDelivery {
            block,
            entity,
            event: event.name.copy(alloc)?,
            arguments: Args {
                activity,
                fields: event.fields.copy(alloc)?,
                failure: Text::from_str(alloc, "")?,
            },
        })
    }
}
