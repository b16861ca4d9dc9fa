//! The lines of services.
ghost use Rattle.std.specs.Prelude.{◌≡◌, ◌++◌, OnOk};
ghost use Rattle.deploy_model.specs.Resolving.{deployed_of};
ghost use Rattle.router_state.specs.Show.{service_lines, state_word};
ghost use Rattle.trace_history.specs.Lines.{line_texts};

use crate::keys::service_key;
use crate::words::put_line;
use router_state::{Service, ServiceState};
use slee_descriptor::Deployment;
use slee_value::NoMemory;
use std::alloc::Global;

fn state_word(state: ServiceState) -> &'static str
    ensures { result.now ≡ state_word state }
{
    match state {
        ServiceState::Inactive => "inactive",
        ServiceState::Active => "active",
        ServiceState::Stopping => "stopping",
    }
}

/// Adds a line for each service, as deployed.
pub fn put_services(
    alloc: Global,
    deployment: &Deployment,
    services: &[Service],
    into: &mut Vec<u8>,
) -> Result<(), NoMemory>
    ensures { OnOk result (into.new.items ≡ into.old.items ++ line_texts (service_lines (deployed_of deployment.now.parts) 0 services.now)) }
{
    'rows: for number in 0..services.len() {
        let key = service_key(deployment, number);
        let line = format!(in alloc; "service {key} {}", state_word(services[number].state))?;
        put_line(&line, into)?;
    }
    Ok(())
}
