//! The state read from a snapshot, and written as one.
ghost use Rattle.std.specs.Prelude.{◌≡◌, ◌++◌, ◌<◌, ◌^◌, None, Some, IfOk, OnErr, OnOk, length};
ghost use Rattle.deploy_model.specs.Resolving.{deployed_of};
ghost use Rattle.script_types.specs.Program.{Program};
ghost use Rattle.script_types.specs.ProgramOf.{kept_program};
ghost use Rattle.router_state.specs.Initial.{initial};
ghost use Rattle.router_state.specs.Restoring.{restored, snapshot_text};
ghost use Rattle.router_state.specs.Snapshot.{spelled_state};
ghost use Rattle.router_state.specs.Well.{IsWell};
ghost use Rattle.router_laws_reading.specs.Holding.{CanHold};
ghost use Rattle.snapshot_rows.specs.Rows.{state_of};
ghost use Rattle.router_core.specs.States.{IsOwn};

use crate::{State, StateFault};
use router_roots::Roots;
use slee_descriptor::Deployment;
use slee_value::NoMemory;
use snapshot_check::is_well;
use snapshot_read::read_rows;
use snapshot_rows::Rows;
use snapshot_stores::{restore, sound_states_can_be_stored};
use std::alloc::Global;

fn drop_rows(_rows: Rows) {}

fn drop_roots(_roots: Roots) {}

/// The rows of the well-formed state of the deployment that has these bytes. More services than 32 bits number find no memory.
fn well_rows(
    alloc: Global,
    deployment: &Deployment,
    format: u8,
    bytes: &[u8],
) -> Result<Rows, StateFault>
    requires { CanHold (deployed_of deployment.now.parts) }
    ensures ok { IfOk result (λ rows. (p : Program) → restored format (deployed_of deployment.now.parts) p bytes.now ≡ Some (state_of (deployed_of deployment.now.parts) p rows)) }
    ensures few { IfOk result (λ rows. length rows.services.items < 2 ^ 32) }
    ensures bad { result ≡ Err StateFault.Bad → (p : Program) → restored format (deployed_of deployment.now.parts) p bytes.now ≡ None }
{
    let rows = read_rows(alloc, deployment, format, bytes)?;
    match is_well(alloc, deployment, &rows) {
        Ok(true) if rows.services.len() < 1 << 32 => Ok(rows),
        Ok(false) => {
            drop_rows(rows);
            Err(StateFault::Bad)
        }
        Ok(true) | Err(NoMemory) => {
            drop_rows(rows);
            Err(StateFault::NoMemory)
        }
    }
}

/// The state that has these rows.
fn state_with(alloc: Global, deployment: &Deployment, rows: Rows) -> Result<State, NoMemory>
    requires well { IsWell (state_of (deployed_of deployment.now.parts) (kept_program deployment.now.codes) rows) }
    requires few { length rows.services.items < 2 ^ 32 }
    ensures { IfOk result (λ s. s.state ≡ state_of (deployed_of deployment.now.parts) (kept_program deployment.now.codes) rows) }
{
    sound_states_can_be_stored();
    match Roots::of(alloc, rows.entities.as_slice(), rows.root_names.as_slice()) {
        Ok(roots) => match restore(alloc, deployment, rows) {
            Ok(stores) => Ok(State { stores, roots }),
            Err(fault) => {
                drop_roots(roots);
                Err(fault)
            }
        },
        Err(fault) => {
            drop_rows(rows);
            Err(fault)
        }
    }
}

impl State {
    /// The well-formed state of the deployment that has these bytes, in format 1 or 2. The deployment is that of the state from then on.
    pub fn from_bytes(
        alloc: Global,
        deployment: &Deployment,
        format: u8,
        bytes: &[u8],
    ) -> Result<Self, StateFault>
        requires own { IsOwn deployment.now (initial (deployed_of deployment.now.parts) (kept_program deployment.now.codes)) }
        requires names { CanHold (deployed_of deployment.now.parts) }
        ensures ok { IfOk result (λ s. restored format (deployed_of deployment.now.parts) (kept_program deployment.now.codes) bytes.now ≡ Some s.state) }
        ensures own { IfOk result (λ s. IsOwn deployment.now s.state) }
        ensures bad { result ≡ Err StateFault.Bad → restored format (deployed_of deployment.now.parts) (kept_program deployment.now.codes) bytes.now ≡ None }
    {
        let rows = well_rows(alloc, deployment, format, bytes)?;
        match state_with(alloc, deployment, rows) {
            Ok(state) => Ok(state),
            Err(NoMemory) => Err(StateFault::NoMemory),
        }
    }

    /// Adds the bytes of the state in format 2. Where memory runs out, nothing is added.
    pub fn to_bytes(&self, deployment: &Deployment, into: &mut Vec<u8>) -> Result<(), NoMemory>
        requires { deployed_of deployment.now.parts ≡ self.now.state.deployment }
        ensures ok { OnOk result (into.new.items ≡ into.old.items ++ spelled_state 2 self.now.state) }
        ensures err { OnErr result (into.new.items ≡ into.old.items) }
    {
        snapshot_write::write_state(&self.stores, deployment, into)
    }

    /// The snapshot of the state for a journal: its bytes in format 2, and none where it is the initial state of the deployment.
    /// Its bytes are fewer than 2^64.
    pub fn snapshot_text(&self, alloc: Global, deployment: &Deployment) -> Result<Vec<u8>, NoMemory>
        requires { deployed_of deployment.now.parts ≡ self.now.state.deployment }
        ensures text { IfOk result (λ bytes. bytes.items ≡ snapshot_text 2 self.now.state) }
        ensures short { OnOk result (length (spelled_state 2 self.now.state) < 2 ^ 64) }
    {
        snapshot_write::snapshot_text(alloc, &self.stores, deployment)
    }
}
