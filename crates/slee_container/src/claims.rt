//! Claims on deliveries: lists of tickets, and copies of them.
ghost use Rattle.std.specs.Prelude.{◌≡◌, ◌==◌, IfOk};
ghost use Rattle.script_meaning.specs.Same.{same_field, same_list, same_option, same_value};
ghost use Rattle.slee_container.specs.Claims.{is_claimed, without_activity, without_claim};
ghost use Rattle.slee_container.specs.Same.{is_among, same_event, same_ticket};

use router_state::Event;
use slee_value::{ActivityId, Name, NoMemory, Value};
use std::alloc::Global;
use tx_attempt::Ticket;

/// Whether the activity is claimed.
pub(crate) fn is_claimed(claims: &[Ticket], activity: ActivityId) -> bool
    ensures { result ≡ is_claimed claims.now activity.0 }
{
    claims.iter().any(|claim| claim.activity.0 == activity.0)
}

/// A copy of an event.
fn copied_event(alloc: Global, event: &Event) -> Result<Event, NoMemory>
    ensures { IfOk result (λ copy. copy ≡ event.now) }
{
    Ok(Event {
        id: event.id,
        name: event.name.copy(alloc)?,
        fields: event.fields.copy(alloc)?,
        target: event.target,
    })
}

/// A copy of a ticket.
pub(crate) fn copied_ticket(alloc: Global, ticket: &Ticket) -> Result<Ticket, NoMemory>
    ensures { IfOk result (λ copy. copy ≡ ticket.now) }
{
    Ok(Ticket {
        number: ticket.number,
        activity: ticket.activity,
        event: copied_event(alloc, &ticket.event)?,
        entity: ticket.entity,
        block: ticket.block,
    })
}

/// Lets the claim of an activity go.
pub(crate) fn drop_claim(claims: &mut Vec<Ticket>, activity: ActivityId)
    ensures { claims.new.items ≡ without_claim claims.old.items activity.0 }
{
    claims.retain(|claim| claim.activity.0 != activity.0);
}

/// Takes an activity out of those that are claimed.
pub(crate) fn drop_activity(claimed: &mut Vec<ActivityId>, activity: ActivityId)
    ensures { claimed.new.items ≡ without_activity claimed.old.items activity.0 }
{
    claimed.retain(|other| other.0 != activity.0);
}

/// Two fields of events.
fn are_same_fields(one: &[(Name, Value)], other: &[(Name, Value)]) -> bool
    ensures { result ≡ same_list same_field one.now other.now }
{
    match (one, other) {
        ([], []) => true,
        ([(name, value), rest @ ..], [(other_name, other_value), other_rest @ ..]) => {
            name.as_bytes() == other_name.as_bytes()
                && is_same_value(value, other_value)
                && are_same_fields(rest, other_rest)
        }
        _ => false,
    }
}

/// Two values.
#[tactic(auto, using(tx_attempt::proofs::SameLemmas::value_by))]
fn is_same_value(one: &Value, other: &Value) -> bool
    ensures { result ≡ same_value one.now other.now }
{
    one.same(other)
}

/// Two targets of events.
fn is_same_target(one: Option<u32>, other: Option<u32>) -> bool
    ensures { result ≡ same_option (λ a b. a == b) one other }
{
    match (one, other) {
        (None, None) => true,
        (Some(one), Some(other)) => one == other,
        _ => false,
    }
}

/// Two events.
fn is_same_event(one: &Event, other: &Event) -> bool
    ensures { result ≡ same_event one.now other.now }
{
    one.id.0 == other.id.0
        && one.name.as_bytes() == other.name.as_bytes()
        && are_same_fields(one.fields.as_slice(), other.fields.as_slice())
        && is_same_target(one.target, other.target)
}

/// Two tickets.
fn is_same_ticket(one: &Ticket, other: &Ticket) -> bool
    ensures { result ≡ same_ticket one.now other.now }
{
    one.number == other.number
        && one.activity.0 == other.activity.0
        && is_same_event(&one.event, &other.event)
        && one.entity.0 == other.entity.0
        && one.block == other.block
}

/// Whether the ticket is one of the claims.
pub(crate) fn is_among(ticket: &Ticket, claims: &[Ticket]) -> bool
    ensures { result ≡ is_among ticket.now claims.now }
{
    claims.iter().any(|claim| is_same_ticket(ticket, claim))
}
