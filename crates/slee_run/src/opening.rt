//! Opening the journal of a deployment.
ghost use Rattle.std.specs.Prelude.{◌≡◌, IfErr, IfOk};
ghost use Rattle.script_types.specs.ProgramOf.{IsChecked};
ghost use Rattle.slee_container.specs.Container.{IsKept};
ghost use Rattle.slee_container.specs.Opening.{Starts};
ghost use Rattle.slee_run.specs.Given.{IsDeployment, start_of};
ghost use Rattle.slee_run.specs.Answers.{IsUnopenedAs, document_on, limits_of, status_of};

use crate::Status;
use commit_journal::SIDE_LIMIT;
use initial_select::Selectors;
use router_durable::OpenFault;
use signal_script::Signals;
use slee_container::{Container, Limits, Mode};
use slee_descriptor::Deployment;
use slee_disk::Disk;
use std::alloc::Global;

/// Opens the journal for a deployment, whose document has these bytes, and a run on these lines; or answers the status of the
/// refusal, and the disk.
pub fn open_journal<'d, D: Disk>(
    alloc: Global,
    deployment: &'d Deployment,
    bytes: &'d [u8],
    lines: &'d Signals,
    disk: D,
    mode: Mode,
    steps: u64,
    selectors: &Selectors,
) -> Result<Container<'d, D>, (Status, D)>
    requires given { IsDeployment bytes.now deployment.now }
    requires checked { IsChecked deployment.now.codes }
    ensures starts { IfOk result (λ c. Starts (D.disk disk) (D.disk c.disk) (start_of deployment.now) bytes.now lines.now mode (limits_of steps) c) }
    ensures kept { IfOk result (λ c. IsKept (D.disk c.disk) c) }
    ensures refused { IfErr result (λ e. IsUnopenedAs (document_on bytes.now deployment.now) (D.disk disk) (D.disk e.1) e.0) }
{
    let limits = Limits {
        journal: SIDE_LIMIT,
        steps,
    };
    match Container::open(
        alloc, disk, deployment, bytes, lines, mode, limits, selectors,
    ) {
        Ok(container) => Ok(container),
        Err((fault, disk)) => Err((status_of(fault), disk)),
    }
}

/// The status of a fault of opening.
fn status_of(fault: OpenFault) -> Status
    ensures { result ≡ status_of fault }
{
    match fault {
        OpenFault::DiskFault => Status::DiskFault,
        OpenFault::BadJournal { side, at, kind } => Status::BadJournal { side, at, kind },
        OpenFault::OtherDeployment {
            kept_len,
            first_difference,
        } => Status::OtherDeployment {
            kept_len,
            first_difference,
        },
        OpenFault::Full { length, adding } => Status::Full { length, adding },
        OpenFault::NoMemory => Status::NoMemory,
    }
}
