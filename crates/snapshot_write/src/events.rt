//! Events that wait.
ghost use Rattle.std.specs.Prelude.{◌≡◌, ◌++◌, OnOk};
ghost use Rattle.deploy_model.specs.Deployed.{service_key};
ghost use Rattle.deploy_model.specs.Resolving.{deployed_of};
ghost use Rattle.slee_value.specs.Bytes.{spelled_option, spelled_text};
ghost use Rattle.router_state.specs.Snapshot.{listed, spelled_event};

use crate::values::{put_count, put_pairs, put_text};
use router_show::service_key;
use router_state::{Event, Queued};
use rows_leaves::Run;
use slee_descriptor::Deployment;
use slee_value::{NoMemory, write_flag, write_u64};

fn put_target(
    deployment: &Deployment,
    target: Option<u32>,
    into: &mut Vec<u8>,
) -> Result<(), NoMemory>
    ensures { OnOk result (into.new.items ≡ into.old.items ++ spelled_option (λ service. spelled_text (service_key (deployed_of deployment.now.parts) service)) target) }
{
    match target {
        None => write_flag(false, into),
        Some(service) => {
            write_flag(true, into)?;
            put_text(service_key(deployment, service as usize).as_bytes(), into)
        }
    }
}

fn put_event(deployment: &Deployment, event: &Event, into: &mut Vec<u8>) -> Result<(), NoMemory>
    ensures { OnOk result (into.new.items ≡ into.old.items ++ spelled_event (deployed_of deployment.now.parts) event.now) }
{
    write_u64(event.id.0, into)?;
    put_text(event.name.as_bytes(), into)?;
    put_target(deployment, event.target, into)?;
    put_pairs(event.fields.as_slice(), into)
}

/// Adds a queue.
pub fn put_queue(
    deployment: &Deployment,
    rows: Run<'_, Queued>,
    into: &mut Vec<u8>,
) -> Result<(), NoMemory>
    ensures { OnOk result (into.new.items ≡ into.old.items ++ listed (λ q. spelled_event (deployed_of deployment.now.parts) q.event) rows.entry) }
{
    put_count(&rows, into)?;
    'rows: for row in rows {
        put_event(deployment, &row.event, into)?;
    }
    Ok(())
}
