//! Whether what a deployment declares rises by name.
ghost use Rattle.std.specs.Prelude.{◌≡◌, length};
ghost use Rattle.std.specs.List.{list_all};
ghost use Rattle.slee_value.specs.Order.{is_below, names_of, rises};
ghost use Rattle.deploy_model.specs.Resolving.{deployed_of};
ghost use Rattle.router_inputs.specs.InOrder.{are_in_order};

use slee_descriptor::{Deployment, EventType, ProfileSpec};
use slee_value::{Kind, Name};
use std::cmp::Ordering;

fn is_below(one: &Name, other: &Name) -> bool
    ensures { result ≡ is_below one.now other.now }
{
    match one.compare(other) {
        Ordering::Less => true,
        Ordering::Equal | Ordering::Greater => false,
    }
}

fn are_rising(fields: &[(Name, Kind)]) -> bool
    ensures { result ≡ rises (names_of fields.now) }
{
    let mut left = fields;
    'left: while let [first, rest @ ..] = left {
        match rest {
            [next, ..] if !is_below(&first.0, &next.0) => return false,
            _ => {}
        }
        left = rest;
    }
    true
}

fn are_events_in_order(events: &[EventType]) -> bool
    ensures { result ≡ list_all (λ e. rises (names_of e.fields)) events.now }
{
    events
        .iter()
        .all(|event| are_rising(event.fields.as_slice()))
}

fn are_profiles_in_order(profiles: &[ProfileSpec]) -> bool
    ensures { result ≡ list_all (λ p. rises (names_of p.attributes)) profiles.now }
{
    profiles
        .iter()
        .all(|profile| are_rising(profile.attributes.as_slice()))
}

/// Whether the fields of each event and the attributes of each profile rise by name.
#[tactic(auto, using(crate::proofs::OrderLemmas::events_in_order, crate::proofs::OrderLemmas::profiles_in_order))]
pub fn are_fields_in_order(deployment: &Deployment) -> bool
    ensures { result ≡ are_in_order (deployed_of deployment.now.parts) }
{
    are_events_in_order(deployment.events()) && are_profiles_in_order(deployment.profiles())
}
