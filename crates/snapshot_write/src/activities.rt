//! Activities, each with its attributes, its queue, the marks of its head event, and its suspension.
ghost use Rattle.std.specs.Prelude.{◌≡◌, ◌++◌, OnOk};
ghost use Rattle.deploy_model.specs.Resolving.{deployed_of};
ghost use Rattle.slee_value.specs.Bytes.{spelled_option, spelled_u32, spelled_u64};
ghost use Rattle.router_state.specs.Snapshot.{listed, spelled_activity_2, spelled_kind, spelled_pair};
ghost use Rattle.snapshot_write.specs.Parts.{spelled_activity_row, spelled_waiting};

use crate::events::put_queue;
use crate::values::{put_count, put_pair, put_text};
use router_show::{service_key, table_name};
use router_state::{AcKind, Activity, Attribute, EntityMark, ServiceMark};
use router_stores::Stores;
use rows_leaves::Run;
use slee_descriptor::Deployment;
use slee_value::{ActivityId, NoMemory, write_flag, write_u32, write_u64};

/// The bytes that tell apart the kinds of activities.
const EXTERNAL: u8 = 0;

const NULL: u8 = 1;

const SERVICE: u8 = 2;

const TABLE: u8 = 3;

fn put_kind(deployment: &Deployment, kind: &AcKind, into: &mut Vec<u8>) -> Result<(), NoMemory>
    ensures { OnOk result (into.new.items ≡ into.old.items ++ spelled_kind (deployed_of deployment.now.parts) kind.now) }
{
    match kind {
        AcKind::External(name) => {
            into.push(EXTERNAL)?;
            put_text(name.as_bytes(), into)
        }
        AcKind::Null => Ok(into.push(NULL)?),
        AcKind::Service(service) => {
            into.push(SERVICE)?;
            put_text(service_key(deployment, *service as usize).as_bytes(), into)
        }
        AcKind::Table(table) => {
            into.push(TABLE)?;
            put_text(table_name(deployment, *table as usize).as_bytes(), into)
        }
    }
}

/// Adds what an activity is, without its rows in other lists.
fn put_row(deployment: &Deployment, row: &Activity, into: &mut Vec<u8>) -> Result<(), NoMemory>
    ensures { OnOk result (into.new.items ≡ into.old.items ++ spelled_activity_row (deployed_of deployment.now.parts) row.now) }
{
    write_u64(row.number.0, into)?;
    put_kind(deployment, &row.kind, into)?;
    write_flag(row.ending, into)
}

fn put_attributes(rows: Run<'_, Attribute>, into: &mut Vec<u8>) -> Result<(), NoMemory>
    ensures { OnOk result (into.new.items ≡ into.old.items ++ listed (λ row. spelled_pair (row.key, row.value)) rows.entry) }
{
    put_count(&rows, into)?;
    'rows: for row in rows {
        put_pair(row.key.as_bytes(), &row.value, into)?;
    }
    Ok(())
}

fn put_services_done(rows: Run<'_, ServiceMark>, into: &mut Vec<u8>) -> Result<(), NoMemory>
    ensures { OnOk result (into.new.items ≡ into.old.items ++ listed (λ m. spelled_u32 m.service) rows.entry) }
{
    put_count(&rows, into)?;
    'rows: for row in rows {
        write_u32(row.service, into)?;
    }
    Ok(())
}

fn put_delivered(rows: Run<'_, EntityMark>, into: &mut Vec<u8>) -> Result<(), NoMemory>
    ensures { OnOk result (into.new.items ≡ into.old.items ++ listed (λ m. spelled_u64 m.entity.0) rows.entry) }
{
    put_count(&rows, into)?;
    'rows: for row in rows {
        write_u64(row.entity.0, into)?;
    }
    Ok(())
}

fn put_suspension(until: Option<u64>, into: &mut Vec<u8>) -> Result<(), NoMemory>
    ensures { OnOk result (into.new.items ≡ into.old.items ++ spelled_option spelled_u64 until) }
{
    match until {
        None => write_flag(false, into),
        Some(until) => {
            write_flag(true, into)?;
            write_u64(until, into)
        }
    }
}

/// Adds what waits on an activity, with the marks of its head event and its suspension.
fn put_waiting(
    stores: &Stores,
    deployment: &Deployment,
    activity: ActivityId,
    into: &mut Vec<u8>,
) -> Result<(), NoMemory>
    requires { deployed_of deployment.now.parts ≡ stores.now.state.deployment }
    ensures { OnOk result (into.new.items ≡ into.old.items ++ spelled_waiting stores.now.state activity.0) }
{
    let queues = stores.queues();
    put_queue(deployment, queues.events_on(activity), into)?;
    put_services_done(queues.services_done(activity), into)?;
    put_delivered(queues.delivered(activity), into)?;
    put_suspension(queues.suspended_until(activity), into)
}

fn put_activity(
    stores: &Stores,
    deployment: &Deployment,
    row: &Activity,
    into: &mut Vec<u8>,
) -> Result<(), NoMemory>
    requires { deployed_of deployment.now.parts ≡ stores.now.state.deployment }
    ensures { OnOk result (into.new.items ≡ into.old.items ++ spelled_activity_2 stores.now.state row.now) }
{
    put_row(deployment, row, into)?;
    put_attributes(stores.contexts().attrs_of(row.number), into)?;
    put_waiting(stores, deployment, row.number, into)
}

/// Adds all activities.
pub fn put_activities(
    stores: &Stores,
    deployment: &Deployment,
    into: &mut Vec<u8>,
) -> Result<(), NoMemory>
    requires { deployed_of deployment.now.parts ≡ stores.now.state.deployment }
    ensures { OnOk result (into.new.items ≡ into.old.items ++ listed (spelled_activity_2 stores.now.state) stores.now.state.activities) }
{
    let contexts = stores.contexts();
    write_u64(contexts.len(), into)?;
    'rows: for place in 0..contexts.len() {
        put_activity(stores, deployment, contexts.at(place), into)?;
    }
    Ok(())
}
