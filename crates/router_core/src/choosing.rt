//! Which choices may be made.
ghost use Rattle.std.specs.Prelude.{◌≡◌};
ghost use Rattle.deploy_model.specs.Resolving.{deployed_of};
ghost use Rattle.router_state.specs.State.{is_used_up};
ghost use Rattle.router_steps.specs.Steps.{is_delivery, is_enabled, is_finish, is_initial, is_next_by};

use router_choice::next;
use router_state::Kindred;
use router_stores::Stores;
use slee_descriptor::Deployment;
use slee_value::ActivityId;
use trace_history::Choice;

/// The most that a count comes to before the state is used up.
const COUNT_LIMIT: u64 = 1 << 62;

/// Whether a count has come too far for another step.
pub fn is_used_up(stores: &Stores) -> bool
    ensures { result ≡ is_used_up stores.now.state }
{
    stores.inputs() > COUNT_LIMIT
        || stores.tree().next_number() > COUNT_LIMIT
        || stores.contexts().next_number() > COUNT_LIMIT
        || stores.timers().next_number() > COUNT_LIMIT
        || stores.next_event() > COUNT_LIMIT
}

fn is_initial_next(stores: &Stores, deployment: &Deployment, activity: ActivityId) -> bool
    requires { deployed_of deployment.now.parts ≡ stores.now.state.deployment }
    ensures { result ≡ is_next_by is_initial stores.now.state activity.0 }
{
    match next(stores, deployment, activity) {
        Some(Kindred::Initial) => true,
        Some(Kindred::Deliver) | Some(Kindred::Finish) | None => false,
    }
}

fn is_delivery_next(stores: &Stores, deployment: &Deployment, activity: ActivityId) -> bool
    requires { deployed_of deployment.now.parts ≡ stores.now.state.deployment }
    ensures { result ≡ is_next_by is_delivery stores.now.state activity.0 }
{
    match next(stores, deployment, activity) {
        Some(Kindred::Deliver) => true,
        Some(Kindred::Initial) | Some(Kindred::Finish) | None => false,
    }
}

fn is_finish_next(stores: &Stores, deployment: &Deployment, activity: ActivityId) -> bool
    requires { deployed_of deployment.now.parts ≡ stores.now.state.deployment }
    ensures { result ≡ is_next_by is_finish stores.now.state activity.0 }
{
    match next(stores, deployment, activity) {
        Some(Kindred::Finish) => true,
        Some(Kindred::Initial) | Some(Kindred::Deliver) | None => false,
    }
}

/// Whether the choice may be made now.
pub fn is_enabled(stores: &Stores, deployment: &Deployment, choice: &Choice) -> bool
    requires { deployed_of deployment.now.parts ≡ stores.now.state.deployment }
    ensures { result ≡ is_enabled stores.now.state choice.now }
{
    if is_used_up(stores) {
        return false;
    }
    match choice {
        Choice::Input(_) => true,
        Choice::Initial(activity) => is_initial_next(stores, deployment, *activity),
        Choice::Deliver(activity) => is_delivery_next(stores, deployment, *activity),
        Choice::Finish(activity) => is_finish_next(stores, deployment, *activity),
    }
}
