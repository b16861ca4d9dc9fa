//! What is done with a journal that isn't played on: its state is shown, or it is compacted.
ghost use Rattle.std.specs.Prelude.{◌≡◌, ◌+◌, ◌++◌, false};
ghost use Rattle.std.specs.Io.KnownBytes.{IsAtEnd};
ghost use Rattle.script_types.specs.ProgramOf.{IsChecked};
ghost use Rattle.slee_disk.specs.Causes.{Rose};
ghost use Rattle.slee_disk.specs.Taken.{ConsumesSome};
ghost use Rattle.router_durable.specs.Core.{is_down};
ghost use Rattle.slee_run.specs.Given.{IsDeployment, deploy_limit};
ghost use Rattle.slee_run.specs.Opening.{IsBeforeOpening};
ghost use Rattle.slee_run.specs.Headline.{IsWritten};
ghost use Rattle.slee_run.specs.Status.{status_line};
ghost use Rattle.slee_run.specs.Text.{generation_line};
ghost use Rattle.slee_run.specs.Answers.{DoesTask, IsTaskBy, IsTaskOf, document_of, document_on, status_of_renewal};

use crate::finishing::{refuse, status_written};
use crate::opening::open_journal;
use crate::printing::write_compacted;
use crate::reading::{Deployed, read_deployed};
use crate::{Given, Status};
use commit_journal::BeginFault;
use initial_select::Selectors;
use signal_script::Signals;
use slee_container::{Container, Mode, OutFault};
use slee_descriptor::Deployment;
use slee_disk::{Disk, Sink, Source};
use std::alloc::Global;

/// What is done with a journal that isn't played on.
#[derive(Clone, Copy, Debug, PartialEq, Eq)]
pub enum Task {
    /// Its state is shown.
    Show,
    /// A snapshot of its state is written to the other side, in place of its records.
    Compact,
}

/// Reads a deployment, and does a task with the journal that the disk has of it.
pub fn tend<S: Source, K: Sink, D: Disk>(
    alloc: Global,
    deploy: &mut S,
    out: &mut K,
    disk: D,
    task: Task,
    selectors: &Selectors,
) -> (Status, D)
    ensures done { IsTaskBy task (S.left deploy.old) (K.contents out.old) (K.contents out.new) (D.disk disk) (D.disk result.1) result.0 }
    ensures read { result.0 ≡ Status.ReadFault → Rose (S.faults deploy.old) (S.faults deploy.new) }
    ensures write { result.0 ≡ Status.WriteFault → Rose (K.faults out.old) (K.faults out.new) }
    ensures disk { result.0 ≡ Status.DiskFault → Rose (D.disk disk).faults (D.disk result.1).faults }
    ensures end { result.0 ≡ Status.Ok → IsAtEnd (S.left deploy.new) }
    ensures large { result.0 ≡ Status.TooLarge Given.Deploy → ConsumesSome (S.left deploy.old) (S.left deploy.new) (deploy_limit + 1) }
    ensures untouched { IsBeforeOpening result.0 → result.1 ≡ disk }
{
    match read_deployed(alloc, deploy) {
        Ok(deployed) => tend_kept(alloc, &deployed, out, disk, task, selectors),
        Err(stood) => (refuse(out, stood), disk),
    }
}

/// Opens the journal of a deployment that was read, and does the task.
fn tend_kept<K: Sink, D: Disk>(
    alloc: Global,
    deployed: &Deployed,
    out: &mut K,
    disk: D,
    task: Task,
    selectors: &Selectors,
) -> (Status, D)
    requires given { IsDeployment deployed.now.bytes deployed.now.checked }
    requires checked { IsChecked deployed.now.checked.codes }
    ensures done { IsTaskOf task (document_of deployed.now) (K.contents out.old) (K.contents out.new) (D.disk disk) (D.disk result.1) result.0 }
    ensures write { result.0 ≡ Status.WriteFault → Rose (K.faults out.old) (K.faults out.new) }
    ensures disk { result.0 ≡ Status.DiskFault → Rose (D.disk disk).faults (D.disk result.1).faults }
    ensures late { IsBeforeOpening result.0 → ⊥ }
{
    let lines = Signals::new(alloc);
    tend_document(
        alloc,
        deployed.checked.deployment(),
        deployed.bytes.as_slice(),
        &lines,
        out,
        disk,
        task,
        selectors,
    )
}

/// Opens the journal for a deployment, whose document has these bytes, and does the task.
fn tend_document<'d, K: Sink, D: Disk>(
    alloc: Global,
    deployment: &'d Deployment,
    bytes: &'d [u8],
    lines: &'d Signals,
    out: &mut K,
    disk: D,
    task: Task,
    selectors: &Selectors,
) -> (Status, D)
    requires given { IsDeployment bytes.now deployment.now }
    requires checked { IsChecked deployment.now.codes }
    ensures done { IsTaskOf task (document_on bytes.now deployment.now) (K.contents out.old) (K.contents out.new) (D.disk disk) (D.disk result.1) result.0 }
    ensures write { result.0 ≡ Status.WriteFault → Rose (K.faults out.old) (K.faults out.new) }
{
    let mut container = match open_journal(
        alloc,
        deployment,
        bytes,
        lines,
        disk,
        Mode::AllNew,
        0,
        selectors,
    ) {
        Ok(container) => container,
        Err((stood, disk)) => return (refuse(out, stood), disk),
    };
    let status = do_task(out, &mut container, task);
    (status, container.into_disk())
}

/// Does a task with a container that was just opened.
fn do_task<'d, K: Sink, D: Disk>(
    out: &mut K,
    container: &mut Container<'d, D>,
    task: Task,
) -> Status
    requires none { container.old.setup.steps ≡ 0 }
    requires live { is_down container.old.stop ≡ false }
    ensures done { DoesTask D.disk task container.old container.new (K.contents out.old) (K.contents out.new) result }
    ensures write { result ≡ Status.WriteFault → Rose (K.faults out.old) (K.faults out.new) }
{
    match task {
        Task::Show => show_state(out, container),
        Task::Compact => compact_state(out, container),
    }
}

/// Writes what is shown of a container's state.
fn show_state<'d, K: Sink, D: Disk>(out: &mut K, container: &Container<'d, D>) -> Status
    ensures done { DoesTask D.disk Task.Show container.now container.now (K.contents out.old) (K.contents out.new) result }
    ensures write { result ≡ Status.WriteFault → Rose (K.faults out.old) (K.faults out.new) }
{
    match container.show(out) {
        Ok(()) => refuse(out, Status::Ok),
        Err(OutFault::WriteFault) => Status::WriteFault,
        Err(OutFault::NoMemory) => refuse(out, Status::NoMemory),
    }
}

/// Compacts the journal, and writes the generation of the new side.
fn compact_state<'d, K: Sink, D: Disk>(out: &mut K, container: &mut Container<'d, D>) -> Status
    requires none { container.old.setup.steps ≡ 0 }
    requires live { is_down container.old.stop ≡ false }
    ensures done { DoesTask D.disk Task.Compact container.old container.new (K.contents out.old) (K.contents out.new) result }
    ensures write { result ≡ Status.WriteFault → Rose (K.faults out.old) (K.faults out.new) }
{
    match container.compact() {
        Ok(generation) => finish_compacted(out, generation),
        Err(fault) => refuse(out, status_of_renewal(fault)),
    }
}

/// Writes the generation of the new side, and that all is done.
#[tactic(auto, using(crate::proofs::EndLemmas::written))]
fn finish_compacted<K: Sink>(out: &mut K, generation: u64) -> Status
    ensures output { IsWritten (K.contents out.old) (K.contents out.new) (generation_line generation ++ status_line Status.Ok) Status.Ok result }
    ensures write { result ≡ Status.WriteFault → Rose (K.faults out.old) (K.faults out.new) }
{
    status_written(write_compacted(out, generation), Status::Ok)
}

/// The status of a side that isn't written anew.
fn status_of_renewal(fault: BeginFault) -> Status
    ensures { result ≡ status_of_renewal fault }
{
    match fault {
        BeginFault::DiskFault => Status::DiskFault,
        BeginFault::Full { length, adding } => Status::Full { length, adding },
        BeginFault::NoMemory => Status::NoMemory,
    }
}
