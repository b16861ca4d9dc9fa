//! The entity that receives a head event next.
ghost use Rattle.std.specs.Prelude.{◌≡◌, option_map};
ghost use Rattle.deploy_model.specs.Resolving.{deployed_of};
ghost use Rattle.router_state.specs.Next.{first};

use router_order::Head;
use router_state::Event;
use router_stores::Stores;
use slee_descriptor::Deployment;
use slee_value::{ActivityId, EntityId};

/// The entity that receives the head event next, if one does. Only attachments to the activity are looked at, up to that of the entity.
pub fn receiver(
    stores: &Stores,
    deployment: &Deployment,
    activity: ActivityId,
    event: &Event,
) -> Option<EntityId>
    requires { deployed_of deployment.now.parts ≡ stores.now.state.deployment }
    ensures { result ≡ option_map (λ row. row.number) (first stores.now.state activity.0 event.now) }
{
    let head = Head {
        event: &event.name,
        blocks: deployment.handlers(&event.name),
        target: event.target,
    };
    stores.order().next_unmarked(
        stores.tree(),
        stores.masks(),
        activity,
        &head,
        stores.queues(),
    )
}
