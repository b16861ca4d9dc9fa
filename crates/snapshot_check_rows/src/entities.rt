//! Whether entities, convergence names and fields are those of a well-formed state.
ghost use Rattle.std.specs.Prelude.{◌≡◌, false};
ghost use Rattle.std.specs.List.{list_all};
ghost use Rattle.std.specs.Option.{option_map_or};
ghost use Rattle.deploy_model.specs.Deployed.{is_event as is_event_so};
ghost use Rattle.deploy_model.specs.Resolving.{deployed_of};
ghost use Rattle.rows_sorted.specs.Keys.{Rises};
ghost use Rattle.router_state.specs.Fits.{is_drawn as is_drawn_so, is_text as is_text_so, none_or};
ghost use Rattle.router_state.specs.Keys.{entity_key, field_key, root_name_key};
ghost use Rattle.router_state.specs.Trees.{entity_at as entity_so};
ghost use Rattle.router_state.specs.WellEntities.{has_its_fields, is_conv, is_entity_row, is_field_row, is_named, is_root_name, is_stem, leads_to as leads_so};

use crate::declared::{block_fields, has_root, is_event, leads_to};
use crate::fits::{are_declared, are_text, is_drawn, is_none_or_text, is_priority, is_value};
use crate::found::{entity_at, fields_of, has_entity, has_root_name};
use router_state::{Entity, Field, RootName, Stem};
use slee_descriptor::Deployment;
use slee_value::{ActivityId, Blob, ConvName, EventId, Name, Text};

/// Whether the parent is there, and the relation of its block leads to this block.
fn has_relation(
    deployment: &Deployment,
    entities: &[Entity],
    parent: u64,
    relation: &Name,
    block: u32,
) -> bool
    requires { Rises entity_key entities.now }
    ensures { result ≡ option_map_or (λ row. leads_so (deployed_of deployment.now.parts) row.block relation.now block) (entity_so entities.now parent) false }
{
    match entity_at(entities, parent) {
        Some(parent) => leads_to(deployment, parent.block, relation, block),
        None => false,
    }
}

/// Whether an entity of this number and block may stand there.
fn is_stem(
    deployment: &Deployment,
    entities: &[Entity],
    number: u64,
    block: u32,
    stem: &Stem,
) -> bool
    requires { Rises entity_key entities.now }
    ensures { result ≡ is_stem (deployed_of deployment.now.parts) entities.now number block stem.now }
{
    match stem {
        Stem::Root(service) => has_root(deployment, *service, block),
        Stem::Child(parent, relation) => {
            parent.0 < number && has_relation(deployment, entities, parent.0, relation, block)
        }
    }
}

fn is_entity_row(deployment: &Deployment, entities: &[Entity], next: u64, row: &Entity) -> bool
    requires { Rises entity_key entities.now }
    ensures { result ≡ is_entity_row (deployed_of deployment.now.parts) entities.now next row.now }
{
    is_drawn(next, row.number.0)
        && (is_priority(row.priority)
            && is_stem(deployment, entities, row.number.0, row.block, &row.stem))
}

/// Whether each entity's number was drawn, and it stands where its block may stand.
pub fn are_placed(deployment: &Deployment, entities: &[Entity], next: u64) -> bool
    requires { Rises entity_key entities.now }
    ensures { result ≡ list_all (is_entity_row (deployed_of deployment.now.parts) entities.now next) entities.now }
{
    entities
        .iter()
        .all(|row| is_entity_row(deployment, entities, next, row))
}

fn is_none_or_activity(next: u64, activity: &Option<ActivityId>) -> bool
    ensures { result ≡ none_or (λ a. is_drawn_so next a.0) activity.now }
{
    match activity {
        None => true,
        Some(activity) => is_drawn(next, activity.0),
    }
}

fn is_none_or_type(deployment: &Deployment, event: &Option<Text>) -> bool
    ensures { result ≡ none_or (is_event_so (deployed_of deployment.now.parts)) event.now }
{
    match event {
        None => true,
        Some(event) => is_event(deployment, event),
    }
}

fn is_none_or_event(next: u64, event: &Option<EventId>) -> bool
    ensures { result ≡ none_or (λ v. is_drawn_so next v.0) event.now }
{
    match event {
        None => true,
        Some(event) => is_drawn(next, event.0),
    }
}

fn is_none_or_custom(custom: &Option<Blob>) -> bool
    ensures { result ≡ none_or is_text_so custom.now }
{
    match custom {
        None => true,
        Some(custom) => are_text(custom.as_slice()),
    }
}

/// Whether the parts of a convergence name fit.
fn is_conv(deployment: &Deployment, next_activity: u64, next_event: u64, name: &ConvName) -> bool
    ensures { result ≡ is_conv (deployed_of deployment.now.parts) next_activity next_event name.now }
{
    is_none_or_activity(next_activity, &name.activity)
        && (is_none_or_text(&name.address)
            && (is_none_or_type(deployment, &name.event_type)
                && (is_none_or_event(next_event, &name.event) && is_none_or_custom(&name.custom))))
}

fn is_root_name(
    deployment: &Deployment,
    entities: &[Entity],
    next_activity: u64,
    next_event: u64,
    row: &RootName,
) -> bool
    requires { Rises entity_key entities.now }
    ensures { result ≡ is_root_name (deployed_of deployment.now.parts) entities.now next_activity next_event row.now }
{
    has_entity(entities, row.entity.0) && is_conv(deployment, next_activity, next_event, &row.name)
}

/// Whether the convergence names are those of entities, and fit.
pub fn are_root_names(
    deployment: &Deployment,
    entities: &[Entity],
    names: &[RootName],
    next_activity: u64,
    next_event: u64,
) -> bool
    requires { Rises entity_key entities.now }
    ensures { result ≡ list_all (is_root_name (deployed_of deployment.now.parts) entities.now next_activity next_event) names.now }
{
    names.iter().all(|row| is_root_name(deployment, entities, next_activity, next_event, row))
}

#[tactic(auto, using(crate::proofs::EntityLemmas::root_named, crate::proofs::EntityLemmas::child_unnamed))]
fn is_named(names: &[RootName], row: &Entity) -> bool
    requires { Rises root_name_key names.now }
    ensures { result ≡ is_named names.now row.now }
{
    match &row.stem {
        Stem::Root(_) => has_root_name(names, row.number.0),
        Stem::Child(_, _) => !has_root_name(names, row.number.0),
    }
}

/// Whether roots, and no other entities, have a convergence name.
pub fn are_named(names: &[RootName], entities: &[Entity]) -> bool
    requires { Rises root_name_key names.now }
    ensures { result ≡ list_all (is_named names.now) entities.now }
{
    entities.iter().all(|row| is_named(names, row))
}

fn is_field_row(entities: &[Entity], next_activity: u64, next_timer: u64, row: &Field) -> bool
    requires { Rises entity_key entities.now }
    ensures { result ≡ is_field_row entities.now next_activity next_timer row.now }
{
    has_entity(entities, row.entity.0) && is_value(next_activity, next_timer, &row.value)
}

/// Whether each field's entity is there, and its value fits.
pub fn are_field_rows(
    entities: &[Entity],
    fields: &[Field],
    next_activity: u64,
    next_timer: u64,
) -> bool
    requires { Rises entity_key entities.now }
    ensures { result ≡ list_all (is_field_row entities.now next_activity next_timer) fields.now }
{
    fields.iter().all(|row| is_field_row(entities, next_activity, next_timer, row))
}

fn has_its_fields(deployment: &Deployment, fields: &[Field], row: &Entity) -> bool
    requires { Rises field_key fields.now }
    ensures { result ≡ has_its_fields (deployed_of deployment.now.parts) fields.now row.now }
{
    are_declared(
        block_fields(deployment, row.block),
        fields_of(fields, row.number.0),
    )
}

/// Whether each entity has the declared fields of its block.
pub fn have_their_fields(deployment: &Deployment, fields: &[Field], entities: &[Entity]) -> bool
    requires { Rises field_key fields.now }
    ensures { result ≡ list_all (has_its_fields (deployed_of deployment.now.parts) fields.now) entities.now }
{
    entities
        .iter()
        .all(|row| has_its_fields(deployment, fields, row))
}
