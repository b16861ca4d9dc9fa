//! What is next on one activity.
ghost use Rattle.std.specs.Prelude.{◌≡◌, option_copied};
ghost use Rattle.deploy_model.specs.Resolving.{deployed_of};
ghost use Rattle.router_state.specs.Look.{next_delivery};
ghost use Rattle.router_state.specs.Next.{next, next_for};
ghost use Rattle.router_choice.specs.Delivering.{delivery_for, unheld};

use crate::receiving::receiver;
use crate::selecting::due_service;
use router_state::{Event, Kindred};
use router_stores::Stores;
use slee_descriptor::Deployment;
use slee_value::{ActivityId, EntityId, EventId};

/// The head event of the activity, unless it is suspended.
fn unheld_head(stores: &Stores, activity: ActivityId) -> Option<&Event>
    ensures { option_copied result ≡ unheld stores.now.state activity.0 }
{
    if stores.queues().suspended_until(activity).is_some() {
        return None;
    }
    stores.queues().front(activity)
}

fn kind_for(
    stores: &Stores,
    deployment: &Deployment,
    activity: ActivityId,
    event: &Event,
) -> Kindred
    requires { deployed_of deployment.now.parts ≡ stores.now.state.deployment }
    ensures { result ≡ next_for stores.now.state activity.0 event.now }
{
    if due_service(stores, deployment, activity, event).is_some() {
        return Kindred::Initial;
    }
    if receiver(stores, deployment, activity, event).is_some() {
        Kindred::Deliver
    } else {
        Kindred::Finish
    }
}

/// The choice that is next on the activity, if there is one.
#[tactic(auto, using(crate::proofs::NextLemmas::next_is))]
pub fn next(stores: &Stores, deployment: &Deployment, activity: ActivityId) -> Option<Kindred>
    requires { deployed_of deployment.now.parts ≡ stores.now.state.deployment }
    ensures { result ≡ next stores.now.state activity.0 }
{
    match unheld_head(stores, activity) {
        Some(event) => Some(kind_for(stores, deployment, activity, event)),
        None => None,
    }
}

fn delivery_for(
    stores: &Stores,
    deployment: &Deployment,
    activity: ActivityId,
    event: &Event,
) -> Option<(EventId, EntityId)>
    requires { deployed_of deployment.now.parts ≡ stores.now.state.deployment }
    ensures { result ≡ delivery_for stores.now.state activity.0 event.now }
{
    if due_service(stores, deployment, activity, event).is_some() {
        return None;
    }
    match receiver(stores, deployment, activity, event) {
        Some(entity) => Some((event.id, entity)),
        None => None,
    }
}

/// The event and the entity of the delivery that is next on the activity, if one is.
#[tactic(auto, using(crate::proofs::NextLemmas::delivery_is))]
pub fn next_delivery(
    stores: &Stores,
    deployment: &Deployment,
    activity: ActivityId,
) -> Option<(EventId, EntityId)>
    requires { deployed_of deployment.now.parts ≡ stores.now.state.deployment }
    ensures { result ≡ next_delivery stores.now.state activity.0 }
{
    match unheld_head(stores, activity) {
        Some(event) => delivery_for(stores, deployment, activity, event),
        None => None,
    }
}
