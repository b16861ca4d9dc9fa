//! Whether what is to be different is: the numbers of events, external names, convergence names within a service, and unique attributes.
ghost use Rattle.std.specs.Prelude.{◌≡◌, IfOk, IsTrue, map, option_copied, option_map};
ghost use Rattle.std.specs.List.{list_all};
ghost use Rattle.deploy_model.specs.Deployed.{table_unique};
ghost use Rattle.snapshot_check.specs.Tables.{differ_in_names, rows_in};
ghost use Rattle.deploy_model.specs.Resolving.{deployed_of};
ghost use Rattle.rows_sorted.specs.Keys.{Rises};
ghost use Rattle.router_state.specs.Keys.{entity_key, profile_row_key};
ghost use Rattle.router_state.specs.Profiles.{are_unique, differ_in, value_of};
ghost use Rattle.router_state.specs.WellContexts.{differ_in_kind};
ghost use Rattle.router_state.specs.WellEntities.{all_differ, differ_in_name, is_named, is_root_name};
ghost use Rattle.router_state.specs.WellQueues.{differ_in_number};
ghost use Rattle.snapshot_check.specs.Roots.{external_names, own_service, root_row, root_view, service_at, value_view, view_of};

use crate::distinct::are_distinct;
use router_state::{AcKind, Activity, Entity, ProfileRow, Queued, RootName, Stem};
use rows_sorted::rows_of;
use slee_descriptor::Deployment;
use slee_value::{ActivityId, Blob, EventId, Name, NoMemory, Text, Value};
use snapshot_check_rows::{count_tables, entity_at, table_unique};
use std::alloc::Global;

/// A convergence name of a service as it is put in order.
#[derive(Clone, Copy, PartialEq, Eq, PartialOrd, Ord)]
pub struct RootKey<'a> {
    pub service: Option<u32>,
    pub activity: Option<u64>,
    pub address: Option<&'a [u8]>,
    pub event_type: Option<&'a [u8]>,
    pub event: Option<u64>,
    pub custom: Option<&'a [u8]>,
}

/// A value as it is put in order: under its type alone, or under none where there is no value.
#[derive(Clone, Copy, PartialEq, Eq, PartialOrd, Ord)]
pub struct ValueKey<'a> {
    pub int: Option<i64>,
    pub text: Option<&'a [u8]>,
    pub flag: Option<bool>,
    pub activity: Option<u64>,
    pub timer: Option<u64>,
}

fn event_numbers(alloc: Global, events: &[Queued]) -> Result<Vec<u64>, NoMemory>
    ensures { IfOk result (λ numbers. numbers.items ≡ map (λ q. q.event.id.0) events.now) }
{
    let mut numbers = Vec::with_capacity(alloc, events.len())?;
    'events: for row in events {
        numbers.push(row.event.id.0)?;
    }
    Ok(numbers)
}

/// Whether the events have different numbers.
pub fn have_own_numbers(alloc: Global, events: &[Queued]) -> Result<bool, NoMemory>
    ensures { IfOk result (λ differ. differ ≡ all_differ differ_in_number events.now) }
{
    let numbers = event_numbers(alloc, events)?;
    are_distinct(numbers)
}

fn external_names<'a>(alloc: Global, activities: &'a [Activity]) -> Result<Vec<&'a [u8]>, NoMemory>
    ensures { IfOk result (λ names. map (λ name. name.now) names.items ≡ external_names activities.now) }
{
    let mut names = Vec::new(alloc);
    'rows: for row in activities {
        match &row.kind {
            AcKind::External(name) => names.push(name.as_bytes())?,
            AcKind::Null | AcKind::Service(_) | AcKind::Table(_) => {}
        }
    }
    Ok(names)
}

/// Whether external activities have different names.
pub fn have_own_names(alloc: Global, activities: &[Activity]) -> Result<bool, NoMemory>
    ensures { IfOk result (λ differ. differ ≡ all_differ (λ x y. differ_in_kind x.kind y.kind) activities.now) }
{
    let names = external_names(alloc, activities)?;
    are_distinct(names)
}

fn own_service(stem: &Stem) -> Option<u32>
    ensures { result ≡ own_service stem.now }
{
    match stem {
        Stem::Root(service) => Some(*service),
        Stem::Child(_, _) => None,
    }
}

/// The service of the root of this number.
fn service_at(entities: &[Entity], entity: u64) -> Option<u32>
    requires { Rises entity_key entities.now }
    ensures { result ≡ service_at entities.now entity }
{
    match entity_at(entities, entity) {
        Some(row) => own_service(&row.stem),
        None => None,
    }
}

fn activity_number(activity: &Option<ActivityId>) -> Option<u64>
    ensures { option_map (λ n. record { 0 = n }) result ≡ activity.now }
{
    match activity {
        Some(activity) => Some(activity.0),
        None => None,
    }
}

fn event_number(event: &Option<EventId>) -> Option<u64>
    ensures { option_map (λ n. record { 0 = n }) result ≡ event.now }
{
    match event {
        Some(event) => Some(event.0),
        None => None,
    }
}

fn text_bytes(text: &Option<Text>) -> Option<&[u8]>
    ensures { option_copied result ≡ text.now }
{
    match text {
        Some(text) => Some(text.as_bytes()),
        None => None,
    }
}

fn blob_bytes(blob: &Option<Blob>) -> Option<&[u8]>
    ensures { option_copied result ≡ blob.now }
{
    match blob {
        Some(blob) => Some(blob.as_slice()),
        None => None,
    }
}

/// The convergence name, with the service of its root.
fn root_key<'a>(entities: &[Entity], row: &'a RootName) -> RootKey<'a>
    requires { Rises entity_key entities.now }
    ensures { root_view result ≡ root_row entities.now row.now }
{
    let service = service_at(entities, row.entity.0);
    let activity = activity_number(&row.name.activity);
    let address = text_bytes(&row.name.address);
    let event_type = text_bytes(&row.name.event_type);
    let event = event_number(&row.name.event);
    let custom = blob_bytes(&row.name.custom);
    RootKey {
        service,
        activity,
        address,
        event_type,
        event,
        custom,
    }
}

#[tactic(auto, using(crate::proofs::SeenLemmas::seen_on, crate::proofs::SeenLemmas::seen_all))]
fn root_keys<'a>(
    alloc: Global,
    entities: &[Entity],
    names: &'a [RootName],
) -> Result<Vec<RootKey<'a>>, NoMemory>
    requires { Rises entity_key entities.now }
    ensures { IfOk result (λ keys. map root_view keys.items ≡ map (root_row entities.now) names.now) }
{
    let mut keys = Vec::with_capacity(alloc, names.len())?;
    'names: for row in names {
        keys.push(root_key(entities, row))?;
    }
    Ok(keys)
}

/// Whether the roots of one service have different convergence names.
pub fn have_own_roots(
    alloc: Global,
    deployment: &Deployment,
    entities: &[Entity],
    names: &[RootName],
    next_activity: u64,
    next_event: u64,
) -> Result<bool, NoMemory>
    requires order { Rises entity_key entities.now }
    requires there { IsTrue (list_all (is_root_name (deployed_of deployment.now.parts) entities.now next_activity next_event) names.now) }
    requires named { IsTrue (list_all (is_named names.now) entities.now) }
    ensures { IfOk result (λ differ. differ ≡ all_differ (differ_in_name entities.now) names.now) }
{
    let keys = root_keys(alloc, entities, names)?;
    are_distinct(keys)
}

/// The value of this name.
fn value_of<'a>(fields: &'a [(Name, Value)], name: &Name) -> Option<&'a Value>
    ensures { option_copied result ≡ value_of fields.now name.now }
{
    for (other, value) in fields {
        if other.as_bytes() == name.as_bytes() {
            return Some(value);
        }
    }
    None
}

const NOTHING: ValueKey<'static> = ValueKey {
    int: None,
    text: None,
    flag: None,
    activity: None,
    timer: None,
};

/// The value, or nothing, as it is put in order.
fn value_key<'a>(value: Option<&'a Value>) -> ValueKey<'a>
    ensures { value_view result ≡ view_of (option_copied value.entry) }
{
    let Some(value) = value else {
        return NOTHING;
    };
    match value {
        Value::Int(number) => ValueKey {
            int: Some(*number),
            ..NOTHING
        },
        Value::Text(text) => ValueKey {
            text: Some(text.as_bytes()),
            ..NOTHING
        },
        Value::Bool(flag) => ValueKey {
            flag: Some(*flag),
            ..NOTHING
        },
        Value::Activity(activity) => ValueKey {
            activity: Some(activity.0),
            ..NOTHING
        },
        Value::Timer(timer) => ValueKey {
            timer: Some(timer.0),
            ..NOTHING
        },
    }
}

#[tactic(auto, using(crate::proofs::SeenLemmas::seen_on, crate::proofs::SeenLemmas::seen_all))]
fn value_keys<'a>(
    alloc: Global,
    rows: &'a [ProfileRow],
    name: &Name,
) -> Result<Vec<ValueKey<'a>>, NoMemory>
    ensures { IfOk result (λ keys. map value_view keys.items ≡ map (λ row. view_of (value_of row.attributes name.now)) rows.now) }
{
    let mut keys = Vec::with_capacity(alloc, rows.len())?;
    'rows: for row in rows {
        let value = value_of(row.attributes.as_slice(), name);
        keys.push(value_key(value))?;
    }
    Ok(keys)
}

/// Whether the rows differ in this attribute.
fn differ_in(alloc: Global, rows: &[ProfileRow], name: &Name) -> Result<bool, NoMemory>
    ensures { IfOk result (λ differ. differ ≡ all_differ (λ x y. differ_in x.attributes y.attributes name.now) rows.now) }
{
    let keys = value_keys(alloc, rows, name)?;
    are_distinct(keys)
}

/// Whether the rows differ in each of these attributes.
fn differ_in_all(alloc: Global, rows: &[ProfileRow], names: &[Name]) -> Result<bool, NoMemory>
    ensures { IfOk result (λ differ. differ ≡ differ_in_names rows.now names.now) }
{
    'names: for name in names {
        let differ = differ_in(alloc, rows, name)?;
        if !differ {
            return Ok(false);
        }
    }
    Ok(true)
}

/// Whether the rows of the table differ in each of its unique attributes.
fn are_unique_in(
    alloc: Global,
    deployment: &Deployment,
    rows: &[ProfileRow],
    table: usize,
) -> Result<bool, NoMemory>
    requires { Rises profile_row_key rows.now }
    ensures { IfOk result (λ unique. unique ≡ differ_in_names (rows_in table rows.now) (table_unique (deployed_of deployment.now.parts) table)) }
{
    let own = rows_of(rows, table as u64);
    let names = table_unique(deployment, table);
    differ_in_all(alloc, own, names)
}

/// Whether the rows of each table differ in its unique attributes.
pub fn are_unique(
    alloc: Global,
    deployment: &Deployment,
    rows: &[ProfileRow],
) -> Result<bool, NoMemory>
    requires { Rises profile_row_key rows.now }
    ensures { IfOk result (λ unique. unique ≡ all_differ (are_unique (deployed_of deployment.now.parts)) rows.now) }
{
    let count = count_tables(deployment);
    'tables: for table in 0..count {
        let unique = are_unique_in(alloc, deployment, rows, table)?;
        if !unique {
            return Ok(false);
        }
    }
    Ok(true)
}
