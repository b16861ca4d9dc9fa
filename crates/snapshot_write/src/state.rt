//! The whole state.
ghost use Rattle.std.specs.Prelude.{◌≡◌, ◌++◌, ◌<◌, ◌^◌, [], IfOk, OnErr, OnOk, if◌then◌else◌, length};
ghost use Rattle.std.specs.Str.{bytes_eq};
ghost use Rattle.script_types.specs.ProgramOf.{kept_program};
ghost use Rattle.deploy_model.specs.Resolving.{deployed_of};
ghost use Rattle.router_state.specs.Initial.{initial};
ghost use Rattle.router_state.specs.Restoring.{snapshot_text};
ghost use Rattle.router_state.specs.Snapshot.{spelled_before, spelled_behind, spelled_counts, spelled_state};

use crate::activities::put_activities;
use crate::entities::put_entities;
use crate::links::put_links;
use crate::names::put_names;
use crate::profiles::put_rows;
use crate::services::put_services;
use crate::timers::put_timers;
use router_show::{names_in_order, rows_in_order};
use router_stores::Stores;
use slee_descriptor::Deployment;
use slee_value::{NoMemory, write_u64};
use std::alloc::Global;

/// Adds the clock, the count of inputs and the next numbers.
fn put_counts(stores: &Stores, into: &mut Vec<u8>) -> Result<(), NoMemory>
    ensures { OnOk result (into.new.items ≡ into.old.items ++ spelled_counts stores.now.state) }
{
    write_u64(stores.clock(), into)?;
    write_u64(stores.inputs(), into)?;
    write_u64(stores.tree().next_number(), into)?;
    write_u64(stores.contexts().next_number(), into)?;
    write_u64(stores.timers().next_number(), into)?;
    write_u64(stores.next_event(), into)
}

/// Adds what stands before the activities.
fn put_before(stores: &Stores, deployment: &Deployment, into: &mut Vec<u8>) -> Result<(), NoMemory>
    requires { deployed_of deployment.now.parts ≡ stores.now.state.deployment }
    ensures { OnOk result (into.new.items ≡ into.old.items ++ spelled_before stores.now.state) }
{
    put_counts(stores, into)?;
    put_services(stores.services(), into)?;
    put_entities(stores, deployment, into)
}

/// Adds what stands behind the activities.
fn put_behind(
    alloc: Global,
    stores: &Stores,
    deployment: &Deployment,
    into: &mut Vec<u8>,
) -> Result<(), NoMemory>
    requires { deployed_of deployment.now.parts ≡ stores.now.state.deployment }
    ensures { OnOk result (into.new.items ≡ into.old.items ++ spelled_behind stores.now.state) }
{
    put_links(stores, into)?;
    put_names(&names_in_order(alloc, stores)?, into)?;
    put_timers(stores.timers(), into)?;
    put_rows(deployment, &rows_in_order(alloc, stores)?, into)
}

fn bytes_of(alloc: Global, stores: &Stores, deployment: &Deployment) -> Result<Vec<u8>, NoMemory>
    requires { deployed_of deployment.now.parts ≡ stores.now.state.deployment }
    ensures { IfOk result (λ bytes. bytes.items ≡ spelled_state 2 stores.now.state) }
{
    let mut bytes = Vec::new(alloc);
    put_before(stores, deployment, &mut bytes)?;
    put_activities(stores, deployment, &mut bytes)?;
    put_behind(alloc, stores, deployment, &mut bytes)?;
    Ok(bytes)
}

/// Adds the bytes of the state in format 2. Where memory runs out, nothing is added.
pub fn write_state(
    stores: &Stores,
    deployment: &Deployment,
    into: &mut Vec<u8>,
) -> Result<(), NoMemory>
    requires { deployed_of deployment.now.parts ≡ stores.now.state.deployment }
    ensures ok { OnOk result (into.new.items ≡ into.old.items ++ spelled_state 2 stores.now.state) }
    ensures err { OnErr result (into.new.items ≡ into.old.items) }
{
    let bytes = bytes_of(*into.allocator(), stores, deployment)?;
    into.extend_from_slice(&bytes)?;
    Ok(())
}

/// The bytes of the initial state of the deployment.
fn initial_bytes(alloc: Global, deployment: &Deployment) -> Result<Vec<u8>, NoMemory>
    ensures { IfOk result (λ bytes. bytes.items ≡ spelled_state 2 (initial (deployed_of deployment.now.parts) (kept_program deployment.now.codes))) }
{
    let first = Stores::initial(alloc, deployment)?;
    bytes_of(alloc, &first, deployment)
}

/// The bytes, but none where they are those of the initial state.
fn unless_initial(alloc: Global, bytes: Vec<u8>, initial: &[u8]) -> Vec<u8>
    ensures bytes { result.items ≡ (if bytes_eq bytes.items initial.now then [] else bytes.items) }
    ensures short { length bytes.items < 2 ^ 64 }
{
    if bytes.as_slice() == initial {
        Vec::new(alloc)
    } else {
        bytes
    }
}

/// The snapshot of the state for a journal: its bytes in format 2, and none where it is the initial state of the deployment.
/// Its bytes are fewer than 2^64.
pub fn snapshot_text(
    alloc: Global,
    stores: &Stores,
    deployment: &Deployment,
) -> Result<Vec<u8>, NoMemory>
    requires { deployed_of deployment.now.parts ≡ stores.now.state.deployment }
    ensures text { IfOk result (λ bytes. bytes.items ≡ snapshot_text 2 stores.now.state) }
    ensures short { OnOk result (length (spelled_state 2 stores.now.state) < 2 ^ 64) }
{
    let bytes = bytes_of(alloc, stores, deployment)?;
    let initial = initial_bytes(alloc, deployment)?;
    Ok(unless_initial(alloc, bytes, &initial))
}
