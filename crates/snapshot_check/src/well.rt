//! Whether rows are those of a well-formed state.
ghost use Rattle.std.specs.Prelude.{◌≡◌, IfOk, IsTrue};
ghost use Rattle.script_types.specs.Program.{Program};
ghost use Rattle.deploy_model.specs.Resolving.{deployed_of};
ghost use Rattle.router_state.specs.Well.{is_well};
ghost use Rattle.router_state.specs.WellRows.{is_next_number};
ghost use Rattle.std.specs.List.{list_all};
ghost use Rattle.snapshot_check.specs.Tops.{is_lower};
ghost use Rattle.snapshot_check.specs.Divided.{are_closed, are_different, are_fit, are_in_order, fit_activities, fit_counts, fit_entities, fit_others, fit_queues, InOrder};
ghost use Rattle.snapshot_rows.specs.Rows.{state_of};

use crate::closed::{are_nulls_in_use, are_roots_held, are_stopping_with_trees};
use crate::differing::{are_unique, have_own_names, have_own_numbers, have_own_roots};
use crate::ordered::rise;
use slee_descriptor::Deployment;
use slee_value::NoMemory;
use snapshot_check_rows::{
    LAST_MOMENT, are_activity_rows, are_attribute_rows, are_entity_marks, are_event_rows,
    are_field_rows, are_link_rows, are_mask_rows, are_name_rows, are_named, are_placed,
    are_profile_rows, are_root_names, are_service_marks, are_services, are_suspension_rows,
    are_timer_rows, end_right, have_table_activities, have_their_fields,
};
use snapshot_rows::Rows;
use std::alloc::Global;

/// Whether the number may come next.
#[tactic(auto, using(crate::proofs::WellLemmas::next_fits))]
fn is_next_number(number: u64) -> bool
    ensures { result ≡ is_next_number number }
{
    0 < number
}

/// Whether the clock, counts and next numbers are in their ranges.
#[tactic(auto, using(crate::proofs::WellLemmas::counts_fit))]
fn are_counts(rows: &Rows) -> bool
    ensures { result ≡ fit_counts rows.now }
{
    let _inputs = rows.inputs;
    rows.clock <= LAST_MOMENT
        && (is_next_number(rows.next_entity)
            && (is_next_number(rows.next_activity)
                && (is_next_number(rows.next_timer) && is_next_number(rows.next_event))))
}

/// Whether each list rises by its keys.
fn are_in_order(rows: &Rows) -> bool
    ensures { result ≡ are_in_order rows.now }
{
    rise(rows.entities.as_slice())
        && (rise(rows.root_names.as_slice())
            && (rise(rows.fields.as_slice())
                && (rise(rows.activities.as_slice())
                    && (rise(rows.attributes.as_slice())
                        && (rise(rows.links.as_slice())
                            && (rise(rows.masks.as_slice())
                                && (rise(rows.names.as_slice())
                                    && (rise(rows.events.as_slice())
                                        && (rise(rows.services_done.as_slice())
                                            && (rise(rows.delivered.as_slice())
                                                && (rise(rows.suspensions.as_slice())
                                                    && (rise(rows.timers.as_slice())
                                                        && rise(rows.rows.as_slice())))))))))))))
}

fn fit_entities(deployment: &Deployment, rows: &Rows) -> bool
    requires { InOrder rows.now }
    ensures { result ≡ fit_entities (deployed_of deployment.now.parts) rows.now }
{
    let entities = rows.entities.as_slice();
    let names = rows.root_names.as_slice();
    let fields = rows.fields.as_slice();
    are_placed(deployment, entities, rows.next_entity)
        && (are_root_names(
            deployment,
            entities,
            names,
            rows.next_activity,
            rows.next_event,
        ) && (are_named(names, entities)
            && (are_field_rows(entities, fields, rows.next_activity, rows.next_timer)
                && have_their_fields(deployment, fields, entities))))
}

fn fit_activities(deployment: &Deployment, rows: &Rows) -> bool
    requires { InOrder rows.now }
    ensures { result ≡ fit_activities (deployed_of deployment.now.parts) rows.now }
{
    let entities = rows.entities.as_slice();
    let activities = rows.activities.as_slice();
    let attributes = rows.attributes.as_slice();
    let links = rows.links.as_slice();
    are_activity_rows(deployment, activities, rows.next_activity)
        && (have_table_activities(deployment, activities)
            && (are_attribute_rows(
                deployment,
                activities,
                attributes,
                rows.next_activity,
                rows.next_timer,
            ) && (are_link_rows(entities, activities, links)
                && (are_mask_rows(deployment, links, rows.masks.as_slice())
                    && are_name_rows(activities, rows.names.as_slice())))))
}

fn fit_queues(deployment: &Deployment, rows: &Rows) -> bool
    requires { InOrder rows.now }
    ensures { result ≡ fit_queues (deployed_of deployment.now.parts) rows.now }
{
    let activities = rows.activities.as_slice();
    let events = rows.events.as_slice();
    let marks = rows.delivered.as_slice();
    are_event_rows(
        deployment,
        activities,
        events,
        rows.next_activity,
        rows.next_timer,
        rows.next_event,
    ) && (end_right(events, activities)
        && (are_service_marks(deployment, events, rows.services_done.as_slice())
            && (are_entity_marks(events, marks, rows.next_entity)
                && are_suspension_rows(rows.clock, events, marks, rows.suspensions.as_slice()))))
}

fn fit_others(deployment: &Deployment, rows: &Rows) -> bool
    requires { InOrder rows.now }
    ensures { result ≡ fit_others (deployed_of deployment.now.parts) rows.now }
{
    let activities = rows.activities.as_slice();
    are_services(deployment, activities, rows.services.as_slice())
        && (are_timer_rows(activities, rows.timers.as_slice(), rows.next_timer)
            && are_profile_rows(
                deployment,
                rows.rows.as_slice(),
                rows.next_activity,
                rows.next_timer,
            ))
}

/// Whether each row fits.
fn are_fit(deployment: &Deployment, rows: &Rows) -> bool
    requires { InOrder rows.now }
    ensures { result ≡ are_fit (deployed_of deployment.now.parts) rows.now }
{
    fit_entities(deployment, rows)
        && (fit_activities(deployment, rows)
            && (fit_queues(deployment, rows) && fit_others(deployment, rows)))
}

/// Whether what is to be different is.
fn are_different(alloc: Global, deployment: &Deployment, rows: &Rows) -> Result<bool, NoMemory>
    requires order { InOrder rows.now }
    requires fits { IsTrue (are_fit (deployed_of deployment.now.parts) rows.now) }
    ensures { IfOk result (λ differ. differ ≡ are_different (deployed_of deployment.now.parts) rows.now) }
{
    let entities = rows.entities.as_slice();
    let root_names = rows.root_names.as_slice();
    let activities = rows.activities.as_slice();
    let events = rows.events.as_slice();
    let profiles = rows.rows.as_slice();
    let roots = have_own_roots(
        alloc,
        deployment,
        entities,
        root_names,
        rows.next_activity,
        rows.next_event,
    )?;
    if !roots {
        return Ok(false);
    }
    let names = have_own_names(alloc, activities)?;
    if !names {
        return Ok(false);
    }
    let numbers = have_own_numbers(alloc, events)?;
    if !numbers {
        return Ok(false);
    }
    let unique = are_unique(alloc, deployment, profiles)?;
    Ok(unique)
}

/// Whether closing changes nothing.
fn are_closed(alloc: Global, rows: &Rows) -> Result<bool, NoMemory>
    requires order { InOrder rows.now }
    requires lower { IsTrue (list_all is_lower rows.now.entities.items) }
    ensures { IfOk result (λ closed. closed ≡ are_closed rows.now) }
{
    let entities = rows.entities.as_slice();
    let services = rows.services.as_slice();
    let activities = rows.activities.as_slice();
    let links = rows.links.as_slice();
    let names = rows.names.as_slice();
    let timers = rows.timers.as_slice();
    let events = rows.events.as_slice();
    let held = are_roots_held(alloc, entities, links)?;
    if !held {
        return Ok(false);
    }
    let trees = are_stopping_with_trees(alloc, entities, services)?;
    if !trees {
        return Ok(false);
    }
    let used = are_nulls_in_use(alloc, activities, links, names, timers, events)?;
    Ok(used)
}

/// Whether these are the rows of a well-formed state of the deployment.
pub fn is_well(alloc: Global, deployment: &Deployment, rows: &Rows) -> Result<bool, NoMemory>
    ensures { IfOk result (λ well. (p : Program) → well ≡ is_well (state_of (deployed_of deployment.now.parts) p rows.now)) }
{
    if !are_counts(rows) {
        return Ok(false);
    }
    if !are_in_order(rows) {
        return Ok(false);
    }
    if !are_fit(deployment, rows) {
        return Ok(false);
    }
    let different = are_different(alloc, deployment, rows)?;
    if !different {
        return Ok(false);
    }
    let closed = are_closed(alloc, rows)?;
    Ok(closed)
}
