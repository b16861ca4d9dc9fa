//! Services.
ghost use Rattle.std.specs.Prelude.{◌≡◌, ◌++◌, OnOk};
ghost use Rattle.router_state.specs.Snapshot.{listed, spelled_service, state_byte};

use router_state::{Service, ServiceState};
use slee_value::{NoMemory, write_u64};

/// The bytes that tell apart the states of a service.
const INACTIVE: u8 = 0;

const ACTIVE: u8 = 1;

const STOPPING: u8 = 2;

fn state_byte(state: ServiceState) -> u8
    ensures { result ≡ state_byte state }
{
    match state {
        ServiceState::Inactive => INACTIVE,
        ServiceState::Active => ACTIVE,
        ServiceState::Stopping => STOPPING,
    }
}

fn put_service(row: Service, into: &mut Vec<u8>) -> Result<(), NoMemory>
    ensures { OnOk result (into.new.items ≡ into.old.items ++ spelled_service row) }
{
    into.push(state_byte(row.state))?;
    write_u64(row.activity.0, into)
}

/// Adds all services.
pub fn put_services(rows: &[Service], into: &mut Vec<u8>) -> Result<(), NoMemory>
    ensures { OnOk result (into.new.items ≡ into.old.items ++ listed spelled_service rows.now) }
{
    write_u64(rows.len() as u64, into)?;
    'rows: for row in rows {
        put_service(*row, into)?;
    }
    Ok(())
}
