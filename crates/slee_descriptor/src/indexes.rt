//! What is looked up in a deployment by a key that no script names.
ghost use Rattle.std.specs.Prelude.{◌≡◌, Option, IfOk};
ghost use Rattle.slee_descriptor.specs.Indexes.{AreIndexes};
ghost use Rattle.deploy_model.specs.Resolving.{deployed_of};
ghost use Rattle.deploy_model.specs.Tables.{parts_fault};

use crate::by_event::{ByEvent, handlers_of};
use crate::keys::{Keys, keys_of};
use crate::selection::{order_of, starters_of};
use deploy_model::Parts;
use slee_value::NoMemory;
use std::alloc::Global;

/// The numbers of profiles and blocks by their keys, and the blocks that handle each event with the services that it may begin.
/// What scripts name is found among the codes.
#[derive(Drop)]
pub(crate) struct Indexes {
    pub profiles: Keys,
    pub blocks: Keys,
    pub handlers: ByEvent,
    pub starters: ByEvent,
}

/// The indexes of parts.
pub(crate) fn indexes_of(alloc: Global, parts: &Parts) -> Result<Indexes, NoMemory>
    requires { parts_fault parts.now ≡ Option.None }
    ensures { IfOk result (λ i. AreIndexes i (deployed_of parts.now)) }
{
    let profiles = keys_of(alloc, parts.profiles.as_slice())?;
    let blocks = keys_of(alloc, parts.blocks.as_slice())?;
    let handlers = handlers_of(alloc, parts.blocks.as_slice())?;
    let order = order_of(alloc, &blocks, parts.services.as_slice())?;
    let starters = starters_of(alloc, parts.blocks.as_slice(), order.as_slice())?;
    Ok(Indexes {
        profiles,
        blocks,
        handlers,
        starters,
    })
}
