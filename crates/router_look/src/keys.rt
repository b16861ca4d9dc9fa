//! What is seen at a key.
ghost use Rattle.std.specs.Prelude.{◌≡◌, ◌<◌, ◌^◌, IfOk, option_map, pos};
ghost use Rattle.std.specs.Option.{option_map_or};
ghost use Rattle.deploy_model.specs.Resolving.{deployed_of};
ghost use Rattle.router_state.specs.Contexts.{activity_at, is_null};
ghost use Rattle.router_state.specs.Look.{look, masks_seen, row_seen, seen_of};
ghost use Rattle.router_state.specs.Timers.{timer_at};
ghost use Rattle.router_state.specs.Trees.{children_under, entity_at};
ghost use Rattle.script_meaning.specs.declared.seen.Seen.TheVariants as seen;

use crate::copying::{copied_row, held, names, numbers, numbers_in};
use crate::rows::row_of;
use router_choice::next_delivery;
use router_state::{AcKind, Activity};
use router_stores::Stores;
use script_meaning::{AcSeen, Ids, Key, Seen};
use slee_descriptor::Deployment;
use slee_value::{ActivityId, EntityId, Name, Names, NoMemory, TimerId};
use std::alloc::Global;

fn is_null(kind: &AcKind) -> bool
    ensures { result ≡ is_null kind.now }
{
    match kind {
        AcKind::Null => true,
        AcKind::External(_) | AcKind::Service(_) | AcKind::Table(_) => false,
    }
}

fn seen_of(row: &Activity) -> AcSeen
    ensures { result ≡ seen_of row.now }
{
    AcSeen {
        null: is_null(&row.kind),
        ending: row.ending,
    }
}

fn activity_seen(stores: &Stores, activity: ActivityId) -> Option<AcSeen>
    ensures { result ≡ option_map seen_of (activity_at stores.now.state.activities activity.0) }
{
    match stores.contexts().find(activity) {
        Some(row) => Some(seen_of(row)),
        None => None,
    }
}

fn children(
    alloc: Global,
    stores: &Stores,
    entity: EntityId,
    relation: &Name,
) -> Result<Ids, NoMemory>
    ensures { IfOk result (λ ids. ids ≡ children_under stores.now.state.entities entity.0 relation.now) }
{
    let entities = stores.tree().children(alloc, entity, relation)?;
    let ids = numbers(alloc, &entities)?;
    Ok(ids)
}

fn priority(stores: &Stores, entity: EntityId) -> i64
    ensures { result ≡ option_map_or (λ row. row.priority) (entity_at stores.now.state.entities entity.0) (pos 0) }
{
    match stores.tree().find(entity) {
        Some(row) => row.priority as i64,
        None => 0,
    }
}

/// The events that the entity masks on the activity, where it is attached there.
fn masks_seen(
    alloc: Global,
    stores: &Stores,
    entity: EntityId,
    activity: ActivityId,
) -> Result<Option<Names>, NoMemory>
    ensures { IfOk result (λ found. found ≡ masks_seen stores.now.state entity.0 activity.0) }
{
    stores.ordered();
    if stores.contexts().is_attached(entity, activity) {
        let events = names(alloc, stores.masks().of(entity, activity))?;
        Ok(Some(events))
    } else {
        Ok(None)
    }
}

fn activity_of_timer(stores: &Stores, timer: TimerId) -> Option<ActivityId>
    ensures { result ≡ option_map (λ row. row.activity) (timer_at stores.now.state.timers timer.0) }
{
    match stores.timers().find(timer) {
        Some(row) => Some(row.activity),
        None => None,
    }
}

/// What is seen at the key. Only what the key names is read.
pub fn look(
    alloc: Global,
    stores: &Stores,
    deployment: &Deployment,
    key: &Key,
) -> Result<Seen, NoMemory>
    requires deployed { deployed_of deployment.now.parts ≡ stores.now.state.deployment }
    requires clock { stores.now.state.clock < 2 ^ 63 }
    ensures { IfOk result (λ s. s ≡ look stores.now.state key.now) }
{
    match key {
        Key::Next(activity) => Ok(Seen::Next(next_delivery(stores, deployment, *activity))),
        Key::Field(entity, field) => held(alloc, stores.fields().get(*entity, field)),
        Key::Children(entity, relation) => {
            Ok(Seen::Ids(children(alloc, stores, *entity, relation)?))
        }
        Key::Priority(entity) => Ok(Seen::Number(priority(stores, *entity))),
        Key::AcState(activity) => Ok(Seen::Ac(activity_seen(stores, *activity))),
        Key::Attr(activity, key) => held(alloc, stores.contexts().attr(*activity, key)),
        Key::Attached(entity, activity) => Ok(Seen::Flag(
            stores.contexts().is_attached(*entity, *activity),
        )),
        Key::Mask(entity, activity) => Ok(Seen::Masks(masks_seen(
            alloc, stores, *entity, *activity,
        )?)),
        Key::Named(name) => Ok(Seen::Refers(stores.contexts().named(name))),
        Key::Timer(timer) => Ok(Seen::Refers(activity_of_timer(stores, *timer))),
        Key::Profile(table, row) => copied_row(alloc, row_of(stores, deployment, table, row)),
        Key::Now => Ok(Seen::Number(stores.clock() as i64)),
        Key::Activities(entity) => Ok(Seen::Ids(numbers_in(alloc, stores.activities_of(*entity))?)),
    }
}
