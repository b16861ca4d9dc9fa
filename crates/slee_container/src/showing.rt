//! Showing the state.
ghost use Rattle.std.specs.Prelude.{◌≡◌, ◌≢◌, Err};
ghost use Rattle.deploy_model.specs.Resolving.{deployed_of};
ghost use Rattle.router_state.specs.Show.{show_text};
ghost use Rattle.slee_disk.specs.Writes.{Writes};

use crate::OutFault;
use router_core::State;
use slee_descriptor::Deployment;
use slee_disk::{Sink, write_whole};
use std::alloc::Global;

/// Writes what the show command prints of a state. All memory is taken before anything is written.
pub(crate) fn show<K: Sink>(
    alloc: Global,
    state: &State,
    deployment: &Deployment,
    out: &mut K,
) -> Result<(), OutFault>
    requires { deployed_of deployment.now.parts ≡ state.now.state.deployment }
    ensures written { result ≢ Err OutFault.NoMemory → Writes K.contents K.faults out.old out.new (show_text state.now.state) result }
    ensures nothing { result ≡ Err OutFault.NoMemory → out.new ≡ out.old }
{
    let mut text = Vec::new(alloc);
    let Ok(()) = state.show(alloc, deployment, &mut text) else {
        return Err(OutFault::NoMemory);
    };
    match write_whole(out, &text) {
        Ok(()) => Ok(()),
        Err(_) => Err(OutFault::WriteFault),
    }
}
