//! What a deployment declares, as the tests of rows ask for it.
ghost use Rattle.std.specs.Prelude.{◌≡◌, ◌==◌, ◌||◌, ◌∷◌, [], false, flat_map, nat_lt, length, option_and_then, option_copied, option_map, slice_get, is_some};
ghost use Rattle.std.specs.Option.{option_map_or};
ghost use Rattle.built_in_events.specs.BuiltIn.{event_named};
ghost use Rattle.script_types.specs.Codes.{built_in_code, named};
ghost use Rattle.deploy_model.specs.Deployed.{attribute_kind, block_fields, event_fields, is_event, relation_of, service_at, table_attributes, table_unique};
ghost use Rattle.deploy_model.specs.Resolving.{deployed_of, number_of};
ghost use Rattle.deploy_model.specs.Tables.{key_number};
ghost use Rattle.router_state.specs.Fits.{are_declared};
ghost use Rattle.router_state.specs.WellEntities.{leads_to};

use crate::fits::{are_declared_fields, is_declared};
use built_in_events::BuiltInEvent;
use script_types::{AttributeCode, BlockCode, Codes, FieldCode, RelationCode, TableCode};
use slee_descriptor::{Deployment, ProfileSpec, Service, Table};
use slee_value::{Kind, Name, Text, Value};

fn block_in(codes: &Codes, block: u32) -> Option<&BlockCode>
    ensures { option_copied result ≡ slice_get codes.now.blocks block }
{
    codes.blocks.as_slice().get(block as usize)
}

fn fields_in(codes: &Codes, block: u32) -> &[FieldCode]
    ensures { result.now ≡ option_map_or (λ b. b.fields) (slice_get codes.now.blocks block) [] }
{
    match block_in(codes, block) {
        Some(block) => block.fields.as_slice(),
        None => &[],
    }
}

fn relation_in<'a>(codes: &'a Codes, block: u32, name: &Name) -> Option<&'a RelationCode>
    ensures { option_copied result ≡ option_and_then (λ b. named (λ r. r.name) name.now b.relations) (slice_get codes.now.blocks block) }
{
    match block_in(codes, block) {
        Some(block) => block.relations.find(name.as_bytes()),
        None => None,
    }
}

fn attribute_among<'a>(attributes: &'a [AttributeCode], key: &Text) -> Option<&'a AttributeCode>
    ensures { option_copied result ≡ named (λ a. a.key) key.now attributes.now }
{
    attributes
        .iter()
        .find(|attribute| attribute.key.as_bytes() == key.as_bytes())
}

fn attribute_in(codes: &Codes, key: &Text) -> Option<Kind>
    ensures { result ≡ option_map (λ a. a.kind) (named (λ a. a.key) key.now (flat_map (λ b. b.attributes) codes.now.blocks)) }
{
    let blocks = codes.blocks.as_slice();
    'each: for block in blocks {
        match attribute_among(block.attributes.as_slice(), key) {
            Some(attribute) => return Some(attribute.kind),
            None => {}
        }
    }
    None
}

fn is_event_in(codes: &Codes, name: &Text) -> bool
    ensures { result ≡ (is_some (event_named name.now) || is_some (named (λ e. e.name) name.now codes.now.events)) }
{
    BuiltInEvent::named(name.as_bytes()).is_some() || codes.events.find(name.as_bytes()).is_some()
}

fn table_in(codes: &Codes, table: u32) -> Option<&TableCode>
    ensures { option_copied result ≡ slice_get codes.now.tables table }
{
    codes.tables.as_slice().get(table as usize)
}

fn attributes_in(codes: &Codes, table: u32) -> &[FieldCode]
    ensures { result.now ≡ option_map_or (λ t. t.attributes) (slice_get codes.now.tables table) [] }
{
    match table_in(codes, table) {
        Some(table) => table.attributes.as_slice(),
        None => &[],
    }
}

/// The fields of the block's entities.
pub fn block_fields(deployment: &Deployment, block: u32) -> &[FieldCode]
    ensures { result.now ≡ block_fields (deployed_of deployment.now.parts) block }
{
    fields_in(deployment.codes(), block)
}

fn relation_of<'a>(deployment: &'a Deployment, block: u32, name: &Name) -> Option<&'a RelationCode>
    ensures { option_copied result ≡ relation_of (deployed_of deployment.now.parts) block name.now }
{
    relation_in(deployment.codes(), block, name)
}

/// Whether the relation is one of this block, and leads to that block.
pub fn leads_to(deployment: &Deployment, block: u32, relation: &Name, child: u32) -> bool
    ensures { result ≡ leads_to (deployed_of deployment.now.parts) block relation.now child }
{
    match relation_of(deployment, block, relation) {
        Some(relation) => relation.block == child,
        None => false,
    }
}

/// The type of the attribute of activities that has this key, in some block.
pub fn attribute_kind(deployment: &Deployment, key: &Text) -> Option<Kind>
    ensures { result ≡ attribute_kind (deployed_of deployment.now.parts) key.now }
{
    attribute_in(deployment.codes(), key)
}

/// Whether the event is declared or built in.
#[tactic(auto, using(crate::proofs::DeclaredLemmas::event_known))]
pub fn is_event(deployment: &Deployment, name: &Text) -> bool
    ensures { result ≡ is_event (deployed_of deployment.now.parts) name.now }
{
    is_event_in(deployment.codes(), name)
}

/// Whether there are no fields.
#[tactic(auto, using(crate::proofs::DeclaredLemmas::none_declared))]
fn has_no_fields(fields: &[(Name, Value)]) -> bool
    ensures { result ≡ are_declared [] fields.now }
{
    fields.is_empty()
}

/// Whether there is one field, of this name and kind.
#[tactic(auto, using(crate::proofs::DeclaredLemmas::one_declared))]
fn has_one_field(name: &str, kind: Kind, fields: &[(Name, Value)]) -> bool
    ensures { result ≡ are_declared (record { name = name.now; kind = kind } ∷ []) fields.now }
{
    match fields.split_first() {
        Some((field, rest)) => {
            is_declared(name.as_bytes(), kind, field.0.as_bytes(), &field.1) && has_no_fields(rest)
        }
        None => false,
    }
}

/// Whether the fields are those of a built-in event.
#[tactic(auto, using(crate::proofs::DeclaredLemmas::built_in_fields))]
fn are_built_in(event: BuiltInEvent, fields: &[(Name, Value)]) -> bool
    ensures { result ≡ are_declared (built_in_code event).fields fields.now }
{
    match event.field() {
        Some((name, kind)) => has_one_field(name, kind, fields),
        None => has_no_fields(fields),
    }
}

/// Whether the fields are those of the event, which is declared or built in.
#[tactic(auto, using(crate::proofs::DeclaredLemmas::fields_built_in, crate::proofs::DeclaredLemmas::fields_declared))]
pub fn are_event_fields(deployment: &Deployment, event: &Text, fields: &[(Name, Value)]) -> bool
    ensures { result ≡ option_map_or (λ declared. are_declared declared fields.now) (event_fields (deployed_of deployment.now.parts) event.now) false }
{
    match BuiltInEvent::named(event.as_bytes()) {
        Some(event) => are_built_in(event, fields),
        None => match deployment.codes().events.find(event.as_bytes()) {
            Some(code) => are_declared_fields(code.fields.as_slice(), fields),
            None => false,
        },
    }
}

/// The number of the block of the service's root.
fn root_of(deployment: &Deployment, service: &Service) -> u32
    ensures { result ≡ number_of (key_number (λ b. b.key) deployment.now.parts.blocks) service.now.root }
{
    let block = deployment.block_named(service.root.as_str());
    block.unwrap_or(0)
}

fn service_in(services: &[Service], service: u32) -> Option<&Service>
    ensures { option_copied result ≡ slice_get services.now service }
{
    services.get(service as usize)
}

/// Whether the service is there, with this block as that of its root.
pub fn has_root(deployment: &Deployment, service: u32, block: u32) -> bool
    ensures { result ≡ option_map_or (λ v. v.root == block) (service_at (deployed_of deployment.now.parts) service) false }
{
    match service_in(deployment.services(), service) {
        Some(service) => root_of(deployment, service) == block,
        None => false,
    }
}

/// How many services are deployed.
#[tactic(auto, using(crate::proofs::DeclaredLemmas::services_counted))]
pub fn count_services(deployment: &Deployment) -> usize
    ensures { result ≡ length (deployed_of deployment.now.parts).services }
{
    deployment.services().len()
}

/// Whether a service has this number.
pub fn has_service(deployment: &Deployment, service: u32) -> bool
    ensures { result ≡ nat_lt service (length (deployed_of deployment.now.parts).services) }
{
    (service as usize) < count_services(deployment)
}

/// How many tables are deployed.
#[tactic(auto, using(crate::proofs::DeclaredLemmas::tables_counted))]
pub fn count_tables(deployment: &Deployment) -> usize
    ensures { result ≡ length (deployed_of deployment.now.parts).tables }
{
    deployment.tables().len()
}

/// Whether a table has this number.
pub fn has_table(deployment: &Deployment, table: u32) -> bool
    ensures { result ≡ nat_lt table (length (deployed_of deployment.now.parts).tables) }
{
    (table as usize) < count_tables(deployment)
}

/// The attributes of the rows of a table.
pub fn table_attributes(deployment: &Deployment, table: u32) -> &[FieldCode]
    ensures { result.now ≡ table_attributes (deployed_of deployment.now.parts) table }
{
    attributes_in(deployment.codes(), table)
}

/// The number of the table's profile specification.
fn profile_of(deployment: &Deployment, table: &Table) -> u32
    ensures { result ≡ number_of (key_number (λ p. p.key) deployment.now.parts.profiles) table.now.profile }
{
    let profile = deployment.profile_named(table.profile.as_str());
    profile.unwrap_or(0)
}

fn unique_in(profiles: &[ProfileSpec], profile: u32) -> &[Name]
    ensures { result.now ≡ option_map_or (λ p. p.unique) (slice_get profiles.now profile) [] }
{
    match profiles.get(profile as usize) {
        Some(profile) => profile.unique.as_slice(),
        None => &[],
    }
}

fn table_at(tables: &[Table], table: usize) -> Option<&Table>
    ensures { option_copied result ≡ slice_get tables.now table }
{
    tables.get(table)
}

/// The attributes in which the rows of a table differ.
pub fn table_unique(deployment: &Deployment, table: usize) -> &[Name]
    ensures { result.now ≡ table_unique (deployed_of deployment.now.parts) table }
{
    match table_at(deployment.tables(), table) {
        Some(table) => unique_in(deployment.profiles(), profile_of(deployment, table)),
        None => &[],
    }
}
