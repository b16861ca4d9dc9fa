//! The rows of activities.
ghost use Rattle.std.specs.Prelude.{◌≡◌, ◌++◌, [], map, OnOk, option_map};
ghost use Rattle.std.specs.List.{cons_option, list_all};
ghost use Rattle.slee_value.specs.Fields.{are_fields};
ghost use Rattle.snapshot_read.specs.Holding.{AreActivityRows, Holds, WithActivity, holds_activity};

use crate::ReadFault;
use crate::holding::{kind_of, payload_of};
use crate::parts::{ActivityPart, EventPart, Pair};
use router_state::{Activity, Attribute, EntityMark, Event, Queued, ServiceMark, Suspension};
use slee_value::{ActivityId, EntityId, NoMemory};
use std::alloc::Global;

/// Activities, and what belongs to them.
#[derive(Drop)]
pub(crate) struct ActivityRows {
    pub(crate) activities: Vec<Activity>,
    pub(crate) attributes: Vec<Attribute>,
    pub(crate) events: Vec<Queued>,
    pub(crate) services_done: Vec<ServiceMark>,
    pub(crate) delivered: Vec<EntityMark>,
    pub(crate) suspensions: Vec<Suspension>,
}

/// The attribute of an activity that a text and a value are.
fn attribute_of(activity: ActivityId, pair: Pair) -> Attribute
    ensures { result ≡ record { activity = activity; key = pair.0; value = pair.1 } }
{
    let Pair { name: key, value } = pair;
    Attribute {
        activity,
        key,
        value,
    }
}

/// Adds the attributes of an activity.
fn add_attributes(
    activity: ActivityId,
    pairs: Vec<Pair>,
    attributes: &mut Vec<Attribute>,
) -> Result<(), NoMemory>
    ensures { OnOk result (attributes.new.items ≡ attributes.old.items ++ map (λ f. record { activity = activity; key = f.0; value = f.1 }) pairs.items) }
{
    'pairs: for pair in pairs {
        attributes.push(attribute_of(activity, pair))?;
    }
    Ok(())
}

/// The event, with the names of its fields looked at.
fn event_of(alloc: Global, part: EventPart) -> Result<Event, ReadFault>
    ensures { Holds (λ event. event ≡ part) (are_fields part.fields) result }
{
    let EventPart {
        id,
        name,
        target,
        fields,
    } = part;
    Ok(Event {
        id,
        name,
        fields: payload_of(alloc, fields)?,
        target,
    })
}

/// Adds the events that wait on an activity.
fn add_events(
    alloc: Global,
    activity: ActivityId,
    parts: Vec<EventPart>,
    events: &mut Vec<Queued>,
) -> Result<(), ReadFault>
    ensures { Holds (λ _. events.new.items ≡ events.old.items ++ map (λ event. record { activity = activity; event = event }) parts.items) (list_all (λ event. are_fields event.fields) parts.items) result }
{
    'parts: for part in parts {
        events.push(Queued {
            activity,
            event: event_of(alloc, part)?,
        })?;
    }
    Ok(())
}

/// Adds the marks of services on an activity.
fn add_services(
    activity: ActivityId,
    numbers: &[u32],
    marks: &mut Vec<ServiceMark>,
) -> Result<(), NoMemory>
    ensures { OnOk result (marks.new.items ≡ marks.old.items ++ map (λ n. record { activity = activity; service = n }) numbers.now) }
{
    for number in numbers {
        marks.push(ServiceMark {
            activity,
            service: *number,
        })?;
    }
    Ok(())
}

/// Adds the marks of entities on an activity.
fn add_delivered(
    activity: ActivityId,
    numbers: &[u64],
    marks: &mut Vec<EntityMark>,
) -> Result<(), NoMemory>
    ensures { OnOk result (marks.new.items ≡ marks.old.items ++ map (λ n. record { activity = activity; entity = record { 0 = n } }) numbers.now) }
{
    for number in numbers {
        marks.push(EntityMark {
            activity,
            entity: EntityId(*number),
        })?;
    }
    Ok(())
}

/// Adds the suspension of an activity, if it has one.
fn add_suspension(
    activity: ActivityId,
    until: Option<u64>,
    suspensions: &mut Vec<Suspension>,
) -> Result<(), NoMemory>
    ensures { OnOk result (suspensions.new.items ≡ suspensions.old.items ++ cons_option (option_map (λ moment. record { activity = activity; until = moment }) until) []) }
{
    match until {
        Some(until) => {
            suspensions.push(Suspension { activity, until })?;
            Ok(())
        }
        None => Ok(()),
    }
}

/// Adds the rows of an activity.
fn add_activity(alloc: Global, part: ActivityPart, rows: &mut ActivityRows) -> Result<(), ReadFault>
    ensures { Holds (λ _. WithActivity part rows.old rows.new) (holds_activity part) result }
{
    let ActivityPart {
        number,
        kind,
        ending,
        attributes,
        events,
        services_done,
        delivered,
        until,
    } = part;
    let activity = ActivityId(number);
    rows.activities.push(Activity {
        number: activity,
        kind: kind_of(alloc, &kind)?,
        ending,
    })?;
    add_suspension(activity, until, &mut rows.suspensions)?;
    add_attributes(activity, attributes, &mut rows.attributes)?;
    add_services(activity, &services_done, &mut rows.services_done)?;
    add_delivered(activity, &delivered, &mut rows.delivered)?;
    add_events(alloc, activity, events, &mut rows.events)?;
    Ok(())
}

/// The rows of activities, in their order.
pub(crate) fn activity_rows(
    alloc: Global,
    parts: Vec<ActivityPart>,
) -> Result<ActivityRows, ReadFault>
    ensures { Holds (AreActivityRows parts.items) (list_all holds_activity parts.items) result }
{
    let mut rows = ActivityRows {
        activities: Vec::new(alloc),
        attributes: Vec::new(alloc),
        events: Vec::new(alloc),
        services_done: Vec::new(alloc),
        delivered: Vec::new(alloc),
        suspensions: Vec::new(alloc),
    };
    'parts: for part in parts {
        add_activity(alloc, part, &mut rows)?;
    }
    Ok(rows)
}
