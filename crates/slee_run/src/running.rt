//! Runs over a journal, from a disk to a disk.
ghost use Rattle.std.specs.Prelude.{◌≡◌, ◌⊎◌, ◌+◌};
ghost use Rattle.std.specs.Io.KnownBytes.{IsAtEnd};
ghost use Rattle.script_types.specs.ProgramOf.{IsChecked};
ghost use Rattle.slee_disk.specs.Causes.{Rose};
ghost use Rattle.slee_disk.specs.Taken.{ConsumesSome};
ghost use Rattle.slee_run.specs.Given.{IsDeployment, deploy_limit, signals_limit};
ghost use Rattle.slee_run.specs.Opening.{IsBeforeOpening};
ghost use Rattle.slee_run.specs.Playing.{status_after};
ghost use Rattle.slee_run.specs.Answers.{IsPlayedFrom, IsPlayedOn, document_of, document_on};

use crate::finishing::{Report, finish, refuse};
use crate::opening::open_journal;
use crate::playing::{End, play};
use crate::reading::{Inputs, read_inputs};
use crate::{Given, Status};
use initial_select::Selectors;
use signal_script::Signals;
use slee_container::Mode;
use slee_descriptor::Deployment;
use slee_disk::{Disk, Sink, Source};
use std::alloc::Global;

/// How far a run goes, which of its lines are new, and what is written of it.
#[derive(Clone, Copy, Debug, PartialEq, Eq)]
pub struct Run {
    pub mode: Mode,
    /// The most entries.
    pub steps: u64,
    pub report: Report,
}

/// Reads a deployment and lines, plays them and writes the trace.
pub fn play_sources<S: Source, T: Source, K: Sink, D: Disk>(
    alloc: Global,
    deploy: &mut S,
    signals: &mut T,
    out: &mut K,
    disk: D,
    run: Run,
    selectors: &Selectors,
) -> (Status, D)
    requires { run.report ≡ Report.Trace }
    ensures played { IsPlayedFrom run.mode run.steps (S.left deploy.old) (T.left signals.old) (K.contents out.old) (K.contents out.new) (D.disk disk) (D.disk result.1) result.0 }
    ensures read { result.0 ≡ Status.ReadFault → Rose (S.faults deploy.old) (S.faults deploy.new) ⊎ Rose (T.faults signals.old) (T.faults signals.new) }
    ensures write { result.0 ≡ Status.WriteFault → Rose (K.faults out.old) (K.faults out.new) }
    ensures disk { result.0 ≡ Status.DiskFault → Rose (D.disk disk).faults (D.disk result.1).faults }
    ensures end { result.0 ≡ Status.Ok → IsAtEnd (S.left deploy.new) × IsAtEnd (T.left signals.new) }
    ensures large { result.0 ≡ Status.TooLarge Given.Signals → ConsumesSome (T.left signals.old) (T.left signals.new) (signals_limit + 1) }
    ensures deploy_large { result.0 ≡ Status.TooLarge Given.Deploy → ConsumesSome (S.left deploy.old) (S.left deploy.new) (deploy_limit + 1) }
    ensures untouched { IsBeforeOpening result.0 → result.1 ≡ disk }
{
    match read_inputs(alloc, deploy, signals) {
        Ok(inputs) => play_inputs(alloc, &inputs, out, disk, run, selectors),
        Err(stood) => (refuse(out, stood), disk),
    }
}

/// Plays lines on what the disk keeps.
pub fn play_inputs<K: Sink, D: Disk>(
    alloc: Global,
    inputs: &Inputs,
    out: &mut K,
    disk: D,
    run: Run,
    selectors: &Selectors,
) -> (Status, D)
    requires given { IsDeployment inputs.now.deployed.bytes inputs.now.deployed.checked }
    requires checked { IsChecked inputs.now.deployed.checked.codes }
    ensures played { IsPlayedOn (document_of inputs.now.deployed) run.mode run.steps run.report inputs.now.lines (K.contents out.old) (K.contents out.new) (D.disk disk) (D.disk result.1) result.0 }
    ensures write { result.0 ≡ Status.WriteFault → Rose (K.faults out.old) (K.faults out.new) }
    ensures disk { result.0 ≡ Status.DiskFault → Rose (D.disk disk).faults (D.disk result.1).faults }
    ensures late { IsBeforeOpening result.0 → ⊥ }
{
    play_document(
        alloc,
        inputs.deployed.checked.deployment(),
        inputs.deployed.bytes.as_slice(),
        &inputs.lines,
        out,
        disk,
        run,
        selectors,
    )
}

/// Plays lines for a deployment, whose document has these bytes, on what the disk keeps.
fn play_document<'d, K: Sink, D: Disk>(
    alloc: Global,
    deployment: &'d Deployment,
    bytes: &'d [u8],
    lines: &'d Signals,
    out: &mut K,
    disk: D,
    run: Run,
    selectors: &Selectors,
) -> (Status, D)
    requires given { IsDeployment bytes.now deployment.now }
    requires checked { IsChecked deployment.now.codes }
    ensures played { IsPlayedOn (document_on bytes.now deployment.now) run.mode run.steps run.report lines.now (K.contents out.old) (K.contents out.new) (D.disk disk) (D.disk result.1) result.0 }
    ensures write { result.0 ≡ Status.WriteFault → Rose (K.faults out.old) (K.faults out.new) }
    ensures late { IsBeforeOpening result.0 → ⊥ }
{
    let mut container = match open_journal(
        alloc, deployment, bytes, lines, disk, run.mode, run.steps, selectors,
    ) {
        Ok(container) => container,
        Err((stood, disk)) => return (refuse(out, stood), disk),
    };
    let end = play(alloc, &mut container, selectors);
    let stood = status_after(container.history().len(), end);
    let status = finish(alloc, out, &container, run.report, stood);
    (status, container.into_disk())
}

/// The status of an end, after so many entries.
pub(crate) fn status_after(entries: u64, end: End) -> Status
    ensures { result ≡ status_after entries end }
{
    match end {
        End::Done => Status::Ok,
        End::Spent => Status::StepsSpent { entries },
        End::Full { length, adding } => Status::Full { length, adding },
        End::DiskFault => Status::DiskFault,
        End::NoMemory => Status::NoMemory,
    }
}
