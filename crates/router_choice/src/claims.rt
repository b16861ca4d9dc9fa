//! The least activity on which something is next.
ghost use Rattle.std.specs.Prelude.{◌≡◌, ◌==◌, map, option_map};
ghost use Rattle.std.specs.List.{list_any};
ghost use Rattle.deploy_model.specs.Resolving.{deployed_of};
ghost use Rattle.router_state.specs.Next.{least};
ghost use Rattle.router_choice.specs.Choosing.{first_of, free_choice};

use crate::heads::next;
use router_state::Kindred;
use router_stores::{Ready, Stores};
use rows_leaves::Run;
use slee_descriptor::Deployment;
use slee_value::ActivityId;

fn is_claimed(claimed: &[ActivityId], activity: ActivityId) -> bool
    ensures { result ≡ list_any (λ a. a.0 == activity.0) claimed.now }
{
    claimed.iter().any(|other| other.0 == activity.0)
}

#[tactic(auto, using(crate::proofs::LeastLemmas::claimed_by_number))]
fn free_choice(
    stores: &Stores,
    deployment: &Deployment,
    claimed: &[ActivityId],
    activity: ActivityId,
) -> Option<Kindred>
    requires { deployed_of deployment.now.parts ≡ stores.now.state.deployment }
    ensures { result ≡ free_choice stores.now.state (map (λ a. a.0) claimed.now) activity.0 }
{
    if is_claimed(claimed, activity) {
        return None;
    }
    match stores.contexts().find(activity) {
        Some(_) => next(stores, deployment, activity),
        None => None,
    }
}

/// The first of these activities that isn't claimed and has a choice, with that choice.
fn first_free(
    stores: &Stores,
    deployment: &Deployment,
    claimed: &[ActivityId],
    ready: Run<'_, Ready>,
) -> Option<(ActivityId, Kindred)>
    requires { deployed_of deployment.now.parts ≡ stores.now.state.deployment }
    ensures { option_map (λ x. (x.0.0, x.1)) result ≡ first_of (free_choice stores.now.state (map (λ a. a.0) claimed.now)) (map (λ row. row.activity.0) ready.entry) }
{
    'ready: for row in ready {
        match free_choice(stores, deployment, claimed, row.activity) {
            Some(kind) => return Some((row.activity, kind)),
            None => {}
        }
    }
    None
}

/// The least activity that isn't one of these and has a choice, with that choice. Only activities that are ready are looked at, up to that one.
pub fn least(
    stores: &Stores,
    deployment: &Deployment,
    claimed: &[ActivityId],
) -> Option<(ActivityId, Kindred)>
    requires { deployed_of deployment.now.parts ≡ stores.now.state.deployment }
    ensures { option_map (λ x. (x.0.0, x.1)) result ≡ least stores.now.state (map (λ a. a.0) claimed.now) }
{
    stores.ordered();
    first_free(stores, deployment, claimed, stores.ready())
}
