//! Whether closing changes nothing: something is attached in the tree of each root, no service is stopped, and each null activity is in use.
ghost use Rattle.std.specs.Prelude.{◌≡◌, ◌==◌, ◌&&◌, ◌||◌, ◌++◌, ℕ, IsTrue, IfOk, OnOk, map, not};
ghost use Rattle.std.specs.List.{list_all, list_any};
ghost use Rattle.std.specs.List.Sorted.{IsNonDecreasing};
ghost use Rattle.rows_sorted.specs.Keys.{Rises};
ghost use Rattle.router_state.specs.Closed.{are_nulls_in_use, are_roots_held, are_stopping_with_trees, is_stopped};
ghost use Rattle.router_state.specs.Contexts.{is_null};
ghost use Rattle.router_state.specs.Keys.{entity_key, link_key, queued_key};
ghost use Rattle.router_state.specs.Queues.{is_waiting as is_waiting_so};
ghost use Rattle.router_state.specs.Services.{is_stopping};
ghost use Rattle.router_state.specs.Trees.{parent_of as parent_so};
ghost use Rattle.snapshot_check.specs.Closing.{services_with_trees};
ghost use Rattle.snapshot_check.specs.Tops.{is_lower};

use crate::numbers::{has_number, in_order};
use crate::tops::{parent_of, tops_of, tops_of_links};
use router_state::{
    AcKind, Activity, Entity, Link, Named, Queued, Service, ServiceState, Stem, Timer,
};
use rows_sorted::has_row_of;
use slee_value::NoMemory;
use snapshot_check_rows::is_waiting;
use std::alloc::Global;

/// Whether each root is one of these entities.
fn are_roots_among(entities: &[Entity], held: &[u64]) -> bool
    requires { IsNonDecreasing held.now }
    ensures { result ≡ list_all (λ row. not (parent_so row == 0) || list_any (λ x. x == row.number.0) held.now) entities.now }
{
    entities.iter().all(|row| parent_of(&row.stem) != 0 || has_number(held, row.number.0))
}

/// Whether something is attached in the tree of each root.
pub fn are_roots_held(alloc: Global, entities: &[Entity], links: &[Link]) -> Result<bool, NoMemory>
    requires order { Rises entity_key entities.now }
    requires lower { IsTrue (list_all is_lower entities.now) }
    ensures { IfOk result (λ held. held ≡ are_roots_held entities.now links.now) }
{
    let tops = tops_of(alloc, entities)?;
    let listed = tops.as_slice();
    let held = tops_of_links(alloc, listed, links)?;
    let sorted = in_order(held)?;
    let found = sorted.as_slice();
    Ok(are_roots_among(entities, found))
}

/// The services that have a tree.
fn services_with_trees(alloc: Global, entities: &[Entity]) -> Result<Vec<u64>, NoMemory>
    ensures { IfOk result (λ services. services.items ≡ services_with_trees entities.now) }
{
    let mut services = Vec::new(alloc);
    'rows: for row in entities {
        match &row.stem {
            Stem::Root(service) => services.push(*service as u64)?,
            Stem::Child(_, _) => {}
        }
    }
    Ok(services)
}

fn is_stopping(state: ServiceState) -> bool
    ensures { result ≡ is_stopping state }
{
    match state {
        ServiceState::Stopping => true,
        ServiceState::Inactive | ServiceState::Active => false,
    }
}

/// Whether the service of this number stops and has no tree.
fn is_stopped(_entities: &[Entity], with_trees: &[u64], number: u64, service: &Service) -> bool
    requires order { IsNonDecreasing with_trees.now }
    requires same { (n : ℕ) → list_any (λ x. x == n) with_trees.now ≡ list_any (λ x. x == n) (services_with_trees _entities.now) }
    ensures { result ≡ is_stopped _entities.now number service.now }
{
    is_stopping(service.state) && !has_number(with_trees, number)
}

/// Whether each service that stops has a tree.
fn are_stopping_among(entities: &[Entity], services: &[Service], with_trees: &[u64]) -> bool
    requires order { IsNonDecreasing with_trees.now }
    requires same { (n : ℕ) → list_any (λ x. x == n) with_trees.now ≡ list_any (λ x. x == n) (services_with_trees entities.now) }
    ensures { result ≡ are_stopping_with_trees entities.now 0 services.now }
{
    'services: for (number, service) in services.iter().enumerate() {
        if is_stopped(entities, with_trees, number as u64, service) {
            return false;
        }
    }
    true
}

/// Whether no service is stopped.
pub fn are_stopping_with_trees(
    alloc: Global,
    entities: &[Entity],
    services: &[Service],
) -> Result<bool, NoMemory>
    ensures { IfOk result (λ held. held ≡ are_stopping_with_trees entities.now 0 services.now) }
{
    let with_trees = services_with_trees(alloc, entities)?;
    let sorted = in_order(with_trees)?;
    let found = sorted.as_slice();
    Ok(are_stopping_among(entities, services, found))
}

/// Adds the activities for which names stand.
fn add_named(names: &[Named], used: &mut Vec<u64>) -> Result<(), NoMemory>
    ensures { OnOk result (used.new.items ≡ used.old.items ++ map (λ row. row.activity.0) names.now) }
{
    'names: for row in names {
        used.push(row.activity.0)?;
    }
    Ok(())
}

/// Adds the activities on which timers stand.
fn add_timed(timers: &[Timer], used: &mut Vec<u64>) -> Result<(), NoMemory>
    ensures { OnOk result (used.new.items ≡ used.old.items ++ map (λ row. row.activity.0) timers.now) }
{
    'timers: for row in timers {
        used.push(row.activity.0)?;
    }
    Ok(())
}

/// The activities that have a name or a timer.
fn activities_in_use(alloc: Global, names: &[Named], timers: &[Timer]) -> Result<Vec<u64>, NoMemory>
    ensures { IfOk result (λ used. used.items ≡ map (λ row. row.activity.0) names.now ++ map (λ row. row.activity.0) timers.now) }
{
    let mut used = Vec::new(alloc);
    add_named(names, &mut used)?;
    add_timed(timers, &mut used)?;
    Ok(used)
}

fn is_null(kind: &AcKind) -> bool
    ensures { result ≡ is_null kind.now }
{
    match kind {
        AcKind::Null => true,
        AcKind::External(_) | AcKind::Service(_) | AcKind::Table(_) => false,
    }
}

/// Whether something is attached to the activity, it has a name or a timer, or an event waits on it.
fn is_in_use(links: &[Link], used: &[u64], events: &[Queued], activity: u64) -> bool
    requires links { Rises link_key links.now }
    requires used { IsNonDecreasing used.now }
    requires events { Rises queued_key events.now }
    ensures { result ≡ (list_any (λ l. l.activity.0 == activity) links.now || (list_any (λ x. x == activity) used.now || is_waiting_so events.now activity)) }
{
    has_row_of(links, activity) || (has_number(used, activity) || is_waiting(events, activity))
}

/// Whether each Active null activity is in use.
fn are_nulls_among(activities: &[Activity], links: &[Link], used: &[u64], events: &[Queued]) -> bool
    requires links { Rises link_key links.now }
    requires used { IsNonDecreasing used.now }
    requires events { Rises queued_key events.now }
    ensures { result ≡ list_all (λ row. not (is_null row.kind && (not row.ending && not (list_any (λ l. l.activity.0 == row.number.0) links.now || (list_any (λ x. x == row.number.0) used.now || is_waiting_so events.now row.number.0))))) activities.now }
{
    activities.iter().all(|row| {
        !(is_null(&row.kind) && (!row.ending && !is_in_use(links, used, events, row.number.0)))
    })
}

/// Whether no Active null activity is unused.
pub fn are_nulls_in_use(
    alloc: Global,
    activities: &[Activity],
    links: &[Link],
    names: &[Named],
    timers: &[Timer],
    events: &[Queued],
) -> Result<bool, NoMemory>
    requires links { Rises link_key links.now }
    requires events { Rises queued_key events.now }
    ensures { IfOk result (λ used. used ≡ are_nulls_in_use activities.now links.now names.now timers.now events.now) }
{
    let used = activities_in_use(alloc, names, timers)?;
    let sorted = in_order(used)?;
    let found = sorted.as_slice();
    Ok(are_nulls_among(activities, links, found, events))
}
