//! The service that selects next for a head event.
ghost use Rattle.std.specs.Prelude.{◌≡◌, find};
ghost use Rattle.deploy_model.specs.Resolving.{deployed_of};
ghost use Rattle.router_state.specs.Next.{due_service, is_for};
ghost use Rattle.router_state.specs.Services.{is_active_at};
ghost use Rattle.router_choice.specs.Selecting.{selects};

use event_queue::Queues;
use router_state::{Event, Service, ServiceState};
use router_stores::Stores;
use slee_descriptor::Deployment;
use slee_value::ActivityId;

fn is_active(services: &[Service], service: u32) -> bool
    ensures { result ≡ is_active_at services.now service }
{
    match services.get(service as usize) {
        Some(row) => match row.state {
            ServiceState::Active => true,
            ServiceState::Inactive | ServiceState::Stopping => false,
        },
        None => false,
    }
}

fn is_for(target: Option<u32>, service: u32) -> bool
    ensures { result ≡ is_for target service }
{
    match target {
        Some(only) => only == service,
        None => true,
    }
}

fn selects(
    services: &[Service],
    queues: &Queues,
    activity: ActivityId,
    target: Option<u32>,
    service: u32,
) -> bool
    ensures { result ≡ selects services.now queues.now.services_done activity.0 target service }
{
    is_active(services, service) && (is_for(target, service) && !queues.is_done(activity, service))
}

/// The first of these services that is to select.
fn first_due(
    starters: &[u32],
    services: &[Service],
    queues: &Queues,
    activity: ActivityId,
    target: Option<u32>,
) -> Option<u32>
    ensures { result ≡ find (selects services.now queues.now.services_done activity.0 target) starters.now }
{
    'each: for service in starters {
        if selects(services, queues, activity, target, *service) {
            return Some(*service);
        }
    }
    None
}

/// The service that selects next for the head event, if one does. Only services that the event may begin are looked at.
#[tactic(auto, using(crate::proofs::SelectLemmas::due_is))]
pub fn due_service(
    stores: &Stores,
    deployment: &Deployment,
    activity: ActivityId,
    event: &Event,
) -> Option<u32>
    requires { deployed_of deployment.now.parts ≡ stores.now.state.deployment }
    ensures { result ≡ due_service stores.now.state activity.0 event.now }
{
    if stores.queues().is_undelivered(activity) {
        first_due(
            deployment.starters(&event.name),
            stores.services(),
            stores.queues(),
            activity,
            event.target,
        )
    } else {
        None
    }
}
