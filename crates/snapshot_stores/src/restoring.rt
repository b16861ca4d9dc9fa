//! The stores of a state.
ghost use Rattle.std.specs.Prelude.{◌≡◌, IfOk};
ghost use Rattle.script_types.specs.ProgramOf.{kept_program};
ghost use Rattle.deploy_model.specs.Resolving.{deployed_of};
ghost use Rattle.router_stores.specs.Filled.{AreFilled, filled_state};
ghost use Rattle.snapshot_rows.specs.Rows.{state_of};
ghost use Rattle.snapshot_stores.specs.Storing.{CanBeStored};

use crate::contexts::contexts_of;
use crate::flat::{FlatRows, flat_stores};
use crate::ordering::{order_of, ready_of};
use crate::queues::queues_of;
use crate::trees::tree_of;
use router_stores::{StoreParts, Stores};
use slee_descriptor::Deployment;
use slee_value::NoMemory;
use snapshot_rows::Rows;
use std::alloc::Global;

/// The filled stores that hold the state of these rows.
fn filled(alloc: Global, deployment: &Deployment, rows: Rows) -> Result<StoreParts, NoMemory>
    requires { CanBeStored (state_of (deployed_of deployment.now.parts) (kept_program deployment.now.codes) rows) }
    ensures filled { IfOk result (AreFilled (deployed_of deployment.now.parts)) }
    ensures state { IfOk result (λ parts. filled_state (deployed_of deployment.now.parts) (kept_program deployment.now.codes) parts ≡ state_of (deployed_of deployment.now.parts) (kept_program deployment.now.codes) rows) }
{
    let (activities, links) = (rows.activities, rows.links);
    let flat = FlatRows {
        fields: rows.fields,
        masks: rows.masks,
        root_names: rows.root_names,
        timers: rows.timers,
        rows: rows.rows,
    };
    let flat = flat_stores(alloc, deployment, rows.next_timer, flat)?;
    let tree = tree_of(alloc, rows.next_entity, rows.entities)?;
    let order = order_of(alloc, &tree, links.as_slice())?;
    let (done, delivered) = (rows.services_done, rows.delivered);
    let queues = queues_of(alloc, rows.events, done, delivered, rows.suspensions)?;
    let ready = ready_of(alloc, &queues, &activities)?;
    let (attributes, names) = (rows.attributes, rows.names);
    let next = rows.next_activity;
    let contexts = contexts_of(alloc, next, activities, attributes, links, names)?;
    Ok(StoreParts {
        fields: flat.fields,
        tree,
        contexts,
        masks: flat.masks,
        queues,
        timers: flat.timers,
        profiles: flat.profiles,
        order,
        ready,
        root_names: flat.root_names,
        services: rows.services,
        clock: rows.clock,
        inputs: rows.inputs,
        next_event: rows.next_event,
    })
}

/// The stores that hold the state of these rows.
pub fn restore(alloc: Global, deployment: &Deployment, rows: Rows) -> Result<Stores, NoMemory>
    requires { CanBeStored (state_of (deployed_of deployment.now.parts) (kept_program deployment.now.codes) rows) }
    ensures { IfOk result (λ s. s.state ≡ state_of (deployed_of deployment.now.parts) (kept_program deployment.now.codes) rows) }
{
    let parts = filled(alloc, deployment, rows)?;
    Ok(Stores::from_parts(deployment, parts))
}
