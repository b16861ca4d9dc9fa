//! Rows found by their numbers.
ghost use Rattle.std.specs.Prelude.{◌≡◌, ◌==◌, filter, is_some, option_copied};
ghost use Rattle.rows_sorted.specs.Keys.{Rises};
ghost use Rattle.router_state.specs.Keys.{activity_key, entity_key, entity_mark_key, field_key, link_key, queued_key, root_name_key};
ghost use Rattle.router_state.specs.Contexts.{activity_at, is_active, is_linked};
ghost use Rattle.router_state.specs.Queues.{is_undelivered, is_waiting};
ghost use Rattle.router_state.specs.Trees.{entity_at, root_name_at};

use router_state::{Activity, Entity, EntityMark, Field, Link, Queued, RootName};
use rows_sorted::{first_row_of, has_row_of, has_row_of_pair, rows_of};

/// The entity of this number.
pub fn entity_at(entities: &[Entity], number: u64) -> Option<&Entity>
    requires { Rises entity_key entities.now }
    ensures { option_copied result ≡ entity_at entities.now number }
{
    first_row_of(entities, number)
}

/// Whether there is an entity of this number.
#[tactic(auto, using(crate::proofs::FoundLemmas::some_found))]
pub fn has_entity(entities: &[Entity], number: u64) -> bool
    requires { Rises entity_key entities.now }
    ensures { result ≡ is_some (entity_at entities.now number) }
{
    has_row_of(entities, number)
}

/// Whether the entity has a convergence name.
pub fn has_root_name(names: &[RootName], entity: u64) -> bool
    requires { Rises root_name_key names.now }
    ensures { result ≡ is_some (root_name_at names.now entity) }
{
    has_row_of(names, entity)
}

/// The fields of an entity.
pub fn fields_of(fields: &[Field], entity: u64) -> &[Field]
    requires { Rises field_key fields.now }
    ensures { result.now ≡ filter (λ row. row.entity.0 == entity) fields.now }
{
    rows_of(fields, entity)
}

/// The activity of this number.
pub fn activity_at(activities: &[Activity], number: u64) -> Option<&Activity>
    requires { Rises activity_key activities.now }
    ensures { option_copied result ≡ activity_at activities.now number }
{
    first_row_of(activities, number)
}

/// Whether there is an activity of this number.
#[tactic(auto, using(crate::proofs::FoundLemmas::some_found))]
pub fn has_activity(activities: &[Activity], number: u64) -> bool
    requires { Rises activity_key activities.now }
    ensures { result ≡ is_some (activity_at activities.now number) }
{
    has_row_of(activities, number)
}

/// Whether the activity is there and isn't Ending.
pub fn is_active(activities: &[Activity], number: u64) -> bool
    requires { Rises activity_key activities.now }
    ensures { result ≡ is_active activities.now number }
{
    match activity_at(activities, number) {
        Some(activity) => !activity.ending,
        None => false,
    }
}

/// Whether the entity is attached to the activity.
#[tactic(auto, using(crate::proofs::FoundLemmas::pair_turned))]
pub fn is_linked(links: &[Link], entity: u64, activity: u64) -> bool
    requires { Rises link_key links.now }
    ensures { result ≡ is_linked links.now entity activity }
{
    has_row_of_pair(links, activity, entity)
}

/// The events that wait on an activity, the head event first.
pub fn events_on(events: &[Queued], activity: u64) -> &[Queued]
    requires { Rises queued_key events.now }
    ensures { result.now ≡ filter (λ q. q.activity.0 == activity) events.now }
{
    rows_of(events, activity)
}

/// Whether an event waits on the activity.
pub fn is_waiting(events: &[Queued], activity: u64) -> bool
    requires { Rises queued_key events.now }
    ensures { result ≡ is_waiting events.now activity }
{
    has_row_of(events, activity)
}

/// Whether no entity has received the activity's head event.
pub fn is_undelivered(delivered: &[EntityMark], activity: u64) -> bool
    requires { Rises entity_mark_key delivered.now }
    ensures { result ≡ is_undelivered delivered.now activity }
{
    !has_row_of(delivered, activity)
}
