//! Whether events that wait, the marks beside head events, suspensions, timers and rows of profile tables are those of a well-formed state.
ghost use Rattle.std.specs.Prelude.{◌≡◌, nat_lt, length, map, not};
ghost use Rattle.std.specs.List.{list_all};
ghost use Rattle.deploy_model.specs.Resolving.{deployed_of};
ghost use Rattle.rows_sorted.specs.Keys.{Rises};
ghost use Rattle.router_state.specs.Fits.{none_or};
ghost use Rattle.router_state.specs.Keys.{activity_key, entity_mark_key, queued_key};
ghost use Rattle.router_state.specs.WellQueues.{ends_right, has_end_last, has_event_fields, has_no_end, is_end, is_entity_mark, is_event_row, is_service_mark, is_suspension_row};
ghost use Rattle.router_state.specs.WellRows.{is_profile_row, is_timer_row};

use crate::declared::{are_event_fields, has_service, has_table, table_attributes};
use crate::fits::{are_declared_fields, are_values, is_drawn, is_text};
use crate::found::{events_on, has_activity, is_active, is_undelivered, is_waiting};
use built_in_events::BuiltInEvent;
use router_state::{
    Activity, EntityMark, Event, ProfileRow, Queued, ServiceMark, Suspension, Timer,
};
use slee_descriptor::Deployment;

/// The last moment there is.
pub const LAST_MOMENT: u64 = 4_000_000_000_000_000;

fn is_none_or_service(deployment: &Deployment, service: &Option<u32>) -> bool
    ensures { result ≡ none_or (λ service. nat_lt service (length (deployed_of deployment.now.parts).services)) service.now }
{
    match service {
        None => true,
        Some(service) => has_service(deployment, *service),
    }
}

fn has_event_fields(
    deployment: &Deployment,
    next_activity: u64,
    next_timer: u64,
    event: &Event,
) -> bool
    ensures { result ≡ has_event_fields (deployed_of deployment.now.parts) next_activity next_timer event.now }
{
    are_event_fields(deployment, &event.name, event.fields.as_slice())
        && are_values(next_activity, next_timer, event.fields.as_slice())
}

fn is_event_row(
    deployment: &Deployment,
    activities: &[Activity],
    next_activity: u64,
    next_timer: u64,
    next_event: u64,
    row: &Queued,
) -> bool
    requires { Rises activity_key activities.now }
    ensures { result ≡ is_event_row (deployed_of deployment.now.parts) activities.now next_activity next_timer next_event row.now }
{
    is_drawn(next_event, row.event.id.0)
        && (has_activity(activities, row.activity.0)
            && (is_none_or_service(deployment, &row.event.target)
                && has_event_fields(deployment, next_activity, next_timer, &row.event)))
}

/// Whether each event waits on an activity that is there, with the fields of its type, and its target is deployed.
pub fn are_event_rows(
    deployment: &Deployment,
    activities: &[Activity],
    events: &[Queued],
    next_activity: u64,
    next_timer: u64,
    next_event: u64,
) -> bool
    requires { Rises activity_key activities.now }
    ensures { result ≡ list_all (is_event_row (deployed_of deployment.now.parts) activities.now next_activity next_timer next_event) events.now }
{
    events.iter().all(|row| {
        is_event_row(
            deployment,
            activities,
            next_activity,
            next_timer,
            next_event,
            row,
        )
    })
}

/// Whether the event is the end of an activity.
fn is_end(event: &Event) -> bool
    ensures { result ≡ is_end event.now }
{
    event.name.as_bytes() == BuiltInEvent::ActivityEnd.name().as_bytes()
}

/// Whether none of the rows has an activity's end.
fn are_no_ends(events: &[Queued]) -> bool
    ensures { result ≡ list_all (λ q. not (is_end q.event)) events.now }
{
    events.iter().all(|row| !is_end(&row.event))
}

/// Whether no event is an activity's end.
fn has_no_end(events: &[Queued]) -> bool
    ensures { result ≡ has_no_end (map (λ q. q.event) events.now) }
{
    are_no_ends(events)
}

/// Whether the last event is an activity's end, and no other.
#[tactic(auto, using(crate::proofs::QueueLemmas::none_last))]
fn has_end_last(events: &[Queued]) -> bool
    ensures { result ≡ has_end_last (map (λ q. q.event) events.now) }
{
    match events.split_last() {
        Some((last, before)) => has_no_end(before) && is_end(&last.event),
        None => false,
    }
}

fn ends_right(events: &[Queued], row: &Activity) -> bool
    requires { Rises queued_key events.now }
    ensures { result ≡ ends_right events.now row.now }
{
    let queue = events_on(events, row.number.0);
    if row.ending {
        has_end_last(queue)
    } else {
        has_no_end(queue)
    }
}

/// Whether the end of each Ending activity waits last on it, and no other activity has an end that waits.
pub fn end_right(events: &[Queued], activities: &[Activity]) -> bool
    requires { Rises queued_key events.now }
    ensures { result ≡ list_all (ends_right events.now) activities.now }
{
    activities.iter().all(|row| ends_right(events, row))
}

fn is_service_mark(deployment: &Deployment, events: &[Queued], mark: &ServiceMark) -> bool
    requires { Rises queued_key events.now }
    ensures { result ≡ is_service_mark (deployed_of deployment.now.parts) events.now mark.now }
{
    is_waiting(events, mark.activity.0) && has_service(deployment, mark.service)
}

/// Whether each mark of a service stands beside a head event, and the service is deployed.
pub fn are_service_marks(deployment: &Deployment, events: &[Queued], marks: &[ServiceMark]) -> bool
    requires { Rises queued_key events.now }
    ensures { result ≡ list_all (is_service_mark (deployed_of deployment.now.parts) events.now) marks.now }
{
    marks
        .iter()
        .all(|mark| is_service_mark(deployment, events, mark))
}

fn is_entity_mark(events: &[Queued], next_entity: u64, mark: &EntityMark) -> bool
    requires { Rises queued_key events.now }
    ensures { result ≡ is_entity_mark events.now next_entity mark.now }
{
    is_waiting(events, mark.activity.0) && is_drawn(next_entity, mark.entity.0)
}

/// Whether each mark of an entity stands beside a head event, and the entity was there once.
pub fn are_entity_marks(events: &[Queued], marks: &[EntityMark], next_entity: u64) -> bool
    requires { Rises queued_key events.now }
    ensures { result ≡ list_all (is_entity_mark events.now next_entity) marks.now }
{
    marks
        .iter()
        .all(|mark| is_entity_mark(events, next_entity, mark))
}

fn is_suspension_row(clock: u64, events: &[Queued], marks: &[EntityMark], row: &Suspension) -> bool
    requires events { Rises queued_key events.now }
    requires marks { Rises entity_mark_key marks.now }
    ensures { result ≡ is_suspension_row clock events.now marks.now row.now }
{
    is_waiting(events, row.activity.0)
        && (!is_undelivered(marks, row.activity.0)
            && (clock < row.until && row.until <= LAST_MOMENT))
}

/// Whether each suspension stands beside a head event that some entity has received, and its moment is above the clock.
pub fn are_suspension_rows(
    clock: u64,
    events: &[Queued],
    marks: &[EntityMark],
    rows: &[Suspension],
) -> bool
    requires events { Rises queued_key events.now }
    requires marks { Rises entity_mark_key marks.now }
    ensures { result ≡ list_all (is_suspension_row clock events.now marks.now) rows.now }
{
    rows.iter()
        .all(|row| is_suspension_row(clock, events, marks, row))
}

fn is_timer_row(activities: &[Activity], next: u64, timer: &Timer) -> bool
    requires { Rises activity_key activities.now }
    ensures { result ≡ is_timer_row activities.now next timer.now }
{
    is_drawn(next, timer.number.0)
        && (is_active(activities, timer.activity.0)
            && (timer.next <= LAST_MOMENT
                && (timer.period <= LAST_MOMENT
                    && (timer.left <= LAST_MOMENT && (0 < timer.period || timer.left == 1)))))
}

/// Whether each timer stands on an Active activity, and its moments and counts fit.
pub fn are_timer_rows(activities: &[Activity], timers: &[Timer], next: u64) -> bool
    requires { Rises activity_key activities.now }
    ensures { result ≡ list_all (is_timer_row activities.now next) timers.now }
{
    timers
        .iter()
        .all(|timer| is_timer_row(activities, next, timer))
}

fn is_profile_row(
    deployment: &Deployment,
    next_activity: u64,
    next_timer: u64,
    row: &ProfileRow,
) -> bool
    ensures { result ≡ is_profile_row (deployed_of deployment.now.parts) next_activity next_timer row.now }
{
    has_table(deployment, row.table)
        && (is_text(&row.row)
            && (are_declared_fields(
                table_attributes(deployment, row.table),
                row.attributes.as_slice(),
            ) && are_values(next_activity, next_timer, row.attributes.as_slice())))
}

/// Whether each row is one of a table that is deployed, with the table's attributes.
pub fn are_profile_rows(
    deployment: &Deployment,
    rows: &[ProfileRow],
    next_activity: u64,
    next_timer: u64,
) -> bool
    ensures { result ≡ list_all (is_profile_row (deployed_of deployment.now.parts) next_activity next_timer) rows.now }
{
    rows.iter().all(|row| is_profile_row(deployment, next_activity, next_timer, row))
}
