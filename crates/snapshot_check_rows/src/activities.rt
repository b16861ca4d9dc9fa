//! Whether activities, and what hangs on them, are those of a well-formed state.
ghost use Rattle.std.specs.Prelude.{◌≡◌, ◌+◌, ◌<◌, ◌^◌, false};
ghost use Rattle.std.specs.List.{list_all};
ghost use Rattle.std.specs.Option.{option_map_or};
ghost use Rattle.slee_value.specs.Name.{is_name as is_name_so};
ghost use Rattle.deploy_model.specs.Deployed.{attribute_kind as attribute_so};
ghost use Rattle.deploy_model.specs.Resolving.{deployed_of};
ghost use Rattle.rows_sorted.specs.Keys.{Rises};
ghost use Rattle.router_state.specs.Contexts.{activity_at as activity_so, is_of_table};
ghost use Rattle.router_state.specs.Fits.{is_of_kind as is_of_kind_so};
ghost use Rattle.router_state.specs.Initial.{table_activity};
ghost use Rattle.router_state.specs.Keys.{activity_key, entity_key, link_key};
ghost use Rattle.router_state.specs.WellContexts.{is_activity_row, is_attribute_row, is_kind, is_link_row, is_mask_row, is_name_row, tables_have_activities};

use crate::declared::{attribute_kind, count_tables, has_service, has_table, is_event};
use crate::fits::{is_drawn, is_of_kind, is_text, is_value};
use crate::found::{activity_at, has_activity, has_entity, is_linked};
use router_state::{AcKind, Activity, Attribute, Entity, Link, Mask, Named};
use slee_descriptor::Deployment;
use slee_value::{Name, Value};

/// A name of this type is one.
fn is_name(name: &Name) -> bool
    ensures { result ≡ is_name_so name.now }
{
    let _bytes = name.as_bytes();
    true
}

/// Whether what an activity stands for is deployed.
fn is_kind(deployment: &Deployment, row: &Activity) -> bool
    ensures { result ≡ is_kind (deployed_of deployment.now.parts) row.now row.now.kind }
{
    match &row.kind {
        AcKind::External(name) => is_name(name),
        AcKind::Null => true,
        AcKind::Service(service) => has_service(deployment, *service),
        AcKind::Table(table) => {
            has_table(deployment, *table) && (row.number.0 == *table as u64 + 1 && !row.ending)
        }
    }
}

fn is_activity_row(deployment: &Deployment, next: u64, row: &Activity) -> bool
    ensures { result ≡ is_activity_row (deployed_of deployment.now.parts) next row.now }
{
    is_drawn(next, row.number.0) && is_kind(deployment, row)
}

/// Whether each activity's number was drawn, and what it stands for is deployed.
pub fn are_activity_rows(deployment: &Deployment, activities: &[Activity], next: u64) -> bool
    ensures { result ≡ list_all (is_activity_row (deployed_of deployment.now.parts) next) activities.now }
{
    activities
        .iter()
        .all(|row| is_activity_row(deployment, next, row))
}

/// Whether the activity is that of the table.
fn is_of_table(table: u64, kind: &AcKind) -> bool
    ensures { result ≡ is_of_table table kind.now }
{
    match kind {
        AcKind::External(_) | AcKind::Null | AcKind::Service(_) => false,
        AcKind::Table(own) => *own as u64 == table,
    }
}

/// Whether the table has its activity.
fn has_table_activity(activities: &[Activity], table: u64) -> bool
    requires order { Rises activity_key activities.now }
    requires fits { table + 1 < 2 ^ 64 }
    ensures { result ≡ option_map_or (λ row. is_of_table table row.kind) (activity_so activities.now (table_activity table)) false }
{
    match activity_at(activities, table + 1) {
        Some(activity) => is_of_table(table, &activity.kind),
        None => false,
    }
}

/// Whether each table has its activity.
#[tactic(auto, using(crate::proofs::ActivityLemmas::table_there, crate::proofs::ActivityLemmas::table_absent, crate::proofs::ActivityLemmas::tables_done))]
pub fn have_table_activities(deployment: &Deployment, activities: &[Activity]) -> bool
    requires { Rises activity_key activities.now }
    ensures { result ≡ tables_have_activities activities.now 0 (deployed_of deployment.now.parts).tables }
{
    let count = count_tables(deployment);
    'tables: for table in 0..count {
        if !has_table_activity(activities, table as u64) {
            return false;
        }
    }
    true
}

/// Whether the value is of the kind of the key, where the key is declared.
fn is_attribute_value(deployment: &Deployment, row: &Attribute) -> bool
    ensures { result ≡ option_map_or (λ kind. is_of_kind_so kind row.now.value) (attribute_so (deployed_of deployment.now.parts) row.now.key) false }
{
    match attribute_kind(deployment, &row.key) {
        Some(kind) => is_of_kind(kind, &row.value),
        None => false,
    }
}

fn is_attribute_row(
    deployment: &Deployment,
    activities: &[Activity],
    next_activity: u64,
    next_timer: u64,
    row: &Attribute,
) -> bool
    requires { Rises activity_key activities.now }
    ensures { result ≡ is_attribute_row (deployed_of deployment.now.parts) activities.now next_activity next_timer row.now }
{
    has_activity(activities, row.activity.0)
        && (is_value(next_activity, next_timer, &row.value) && is_attribute_value(deployment, row))
}

/// Whether each attribute's activity is there, and its value is of the key's kind.
pub fn are_attribute_rows(
    deployment: &Deployment,
    activities: &[Activity],
    attributes: &[Attribute],
    next_activity: u64,
    next_timer: u64,
) -> bool
    requires { Rises activity_key activities.now }
    ensures { result ≡ list_all (is_attribute_row (deployed_of deployment.now.parts) activities.now next_activity next_timer) attributes.now }
{
    attributes.iter().all(|row| is_attribute_row(
        deployment,
        activities,
        next_activity,
        next_timer,
        row,
    ))
}

fn is_link_row(entities: &[Entity], activities: &[Activity], link: &Link) -> bool
    requires entities { Rises entity_key entities.now }
    requires activities { Rises activity_key activities.now }
    ensures { result ≡ is_link_row entities.now activities.now link.now }
{
    has_entity(entities, link.entity.0) && has_activity(activities, link.activity.0)
}

/// Whether what is attached is there, and what it is attached to.
pub fn are_link_rows(entities: &[Entity], activities: &[Activity], links: &[Link]) -> bool
    requires entities { Rises entity_key entities.now }
    requires activities { Rises activity_key activities.now }
    ensures { result ≡ list_all (is_link_row entities.now activities.now) links.now }
{
    links
        .iter()
        .all(|link| is_link_row(entities, activities, link))
}

fn is_mask_row(deployment: &Deployment, links: &[Link], mask: &Mask) -> bool
    requires { Rises link_key links.now }
    ensures { result ≡ is_mask_row (deployed_of deployment.now.parts) links.now mask.now }
{
    is_linked(links, mask.entity.0, mask.activity.0) && is_event(deployment, &mask.event)
}

/// Whether each mask stands on an attachment and names an event that there is.
pub fn are_mask_rows(deployment: &Deployment, links: &[Link], masks: &[Mask]) -> bool
    requires { Rises link_key links.now }
    ensures { result ≡ list_all (is_mask_row (deployed_of deployment.now.parts) links.now) masks.now }
{
    masks
        .iter()
        .all(|mask| is_mask_row(deployment, links, mask))
}

fn is_name_row(activities: &[Activity], row: &Named) -> bool
    requires { Rises activity_key activities.now }
    ensures { result ≡ is_name_row activities.now row.now }
{
    is_text(&row.name) && has_activity(activities, row.activity.0)
}

/// Whether each name is a text and stands for an activity that is there.
pub fn are_name_rows(activities: &[Activity], names: &[Named]) -> bool
    requires { Rises activity_key activities.now }
    ensures { result ≡ list_all (is_name_row activities.now) names.now }
{
    names.iter().all(|row| is_name_row(activities, row))
}
