//! Entities, each with its convergence name and its fields.
ghost use Rattle.std.specs.Prelude.{◌≡◌, ◌++◌, OnOk};
ghost use Rattle.deploy_model.specs.Resolving.{deployed_of};
ghost use Rattle.router_state.specs.Snapshot.{listed, spelled_entity, spelled_name_of, spelled_pair, spelled_stem};
ghost use Rattle.snapshot_write.specs.Parts.{spelled_entity_row};

use crate::convergence::put_found_name;
use crate::values::{put_count, put_pair, put_text};
use router_show::{block_key, service_key};
use router_state::{Entity, Field, Stem};
use router_stores::Stores;
use rows_leaves::Run;
use slee_descriptor::Deployment;
use slee_value::{NoMemory, write_i8, write_u64};

/// Where a root has the number of its parent.
const NO_PARENT: u64 = 0;

fn put_stem(deployment: &Deployment, stem: &Stem, into: &mut Vec<u8>) -> Result<(), NoMemory>
    ensures { OnOk result (into.new.items ≡ into.old.items ++ spelled_stem (deployed_of deployment.now.parts) stem.now) }
{
    match stem {
        Stem::Root(service) => {
            write_u64(NO_PARENT, into)?;
            put_text(service_key(deployment, *service as usize).as_bytes(), into)
        }
        Stem::Child(parent, relation) => {
            write_u64(parent.0, into)?;
            put_text(relation.as_bytes(), into)
        }
    }
}

/// Adds the convergence name of a root.
fn put_name(stores: &Stores, row: &Entity, into: &mut Vec<u8>) -> Result<(), NoMemory>
    ensures { OnOk result (into.new.items ≡ into.old.items ++ spelled_name_of stores.now.state row.now row.now.stem) }
{
    match &row.stem {
        Stem::Root(_) => put_found_name(stores.root_name(row.number), into),
        Stem::Child(_, _) => Ok(()),
    }
}

fn put_fields(rows: Run<'_, Field>, into: &mut Vec<u8>) -> Result<(), NoMemory>
    ensures { OnOk result (into.new.items ≡ into.old.items ++ listed (λ row. spelled_pair (row.name, row.value)) rows.entry) }
{
    put_count(&rows, into)?;
    'rows: for row in rows {
        put_pair(row.name.as_bytes(), &row.value, into)?;
    }
    Ok(())
}

/// Adds what an entity is, without its name and its fields.
fn put_row(deployment: &Deployment, row: &Entity, into: &mut Vec<u8>) -> Result<(), NoMemory>
    ensures { OnOk result (into.new.items ≡ into.old.items ++ spelled_entity_row (deployed_of deployment.now.parts) row.now) }
{
    write_u64(row.number.0, into)?;
    put_text(block_key(deployment, row.block as usize).as_bytes(), into)?;
    put_stem(deployment, &row.stem, into)?;
    write_i8(row.priority, into)
}

fn put_entity(
    stores: &Stores,
    deployment: &Deployment,
    row: &Entity,
    into: &mut Vec<u8>,
) -> Result<(), NoMemory>
    requires { deployed_of deployment.now.parts ≡ stores.now.state.deployment }
    ensures { OnOk result (into.new.items ≡ into.old.items ++ spelled_entity stores.now.state row.now) }
{
    put_row(deployment, row, into)?;
    put_name(stores, row, into)?;
    put_fields(stores.fields().of(row.number), into)
}

/// Adds all entities.
pub fn put_entities(
    stores: &Stores,
    deployment: &Deployment,
    into: &mut Vec<u8>,
) -> Result<(), NoMemory>
    requires { deployed_of deployment.now.parts ≡ stores.now.state.deployment }
    ensures { OnOk result (into.new.items ≡ into.old.items ++ listed (spelled_entity stores.now.state) stores.now.state.entities) }
{
    let tree = stores.tree();
    write_u64(tree.len(), into)?;
    'rows: for place in 0..tree.len() {
        put_entity(stores, deployment, tree.at(place), into)?;
    }
    Ok(())
}
