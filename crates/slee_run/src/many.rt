//! Runs of several workers: they take turns on the container, and this thread plays what they leave.
ghost use Rattle.std.specs.Prelude.{◌≡◌, ◌≤◌, ◌<◌, [], false, length};
ghost use Rattle.script_types.specs.ProgramOf.{IsChecked};
ghost use Rattle.slee_disk.specs.Causes.{Rose};
ghost use Rattle.router_durable.specs.Core.{is_down};
ghost use Rattle.worker_gate.specs.Works.{IsServed};
ghost use Rattle.slee_container.specs.Turns.{setup_told};
ghost use Rattle.slee_run.specs.Answers.{document_of, document_on};
ghost use Rattle.slee_run.specs.Given.{IsDeployment};
ghost use Rattle.slee_run.specs.Many.{IsCrew, IsDownAt, IsPlayedTogether, StandsAt, end_of_stop};
ghost use Rattle.slee_run.specs.Opening.{IsBeforeOpening};

use crate::Status;
use crate::finishing::{Report, finish, refuse};
use crate::opening::open_journal;
use crate::playing::{End, advance};
use crate::reading::Inputs;
use crate::running::status_after;
use initial_select::Selectors;
use router_durable::Stop;
use signal_script::Signals;
use slee_container::{Container, Mode};
use slee_descriptor::Deployment;
use slee_disk::{Disk, Sink};
use std::alloc::Global;
use std::sync::Wait;
use std::thread::Threads;
use worker_gate::Gate;
use worker_threads::share;

/// How many workers play, how far, and which lines are new.
#[derive(Clone, Copy, Debug, PartialEq, Eq)]
pub struct Crew {
    pub workers: usize,
    pub mode: Mode,
    /// The most entries.
    pub steps: u64,
}

/// How a stopped container's run ended.
fn end_of_stop(stop: Stop) -> End
    ensures { result ≡ end_of_stop stop }
{
    match stop {
        Stop::DiskFault => End::DiskFault,
        Stop::Full { length, adding } => End::Full { length, adding },
        Stop::NoMemory => End::NoMemory,
    }
}

/// Makes sure of what isn't acknowledged yet, unless the disk has failed.
#[tactic(auto, using(crate::proofs::RestLemmas::up_at, crate::proofs::RestLemmas::closed, crate::proofs::RestLemmas::fell))]
fn close<'d, D: Disk>(container: &mut Container<'d, D>, end: End) -> End
    requires down { IsDownAt container.old.stop end }
    requires stands { StandsAt container.old end }
    ensures setup { container.new.setup ≡ container.old.setup }
    ensures down { IsDownAt container.new.stop result }
    ensures stands { StandsAt container.new result }
    ensures whole { is_down container.new.stop ≡ false → container.new.acked ≡ length container.new.history }
{
    let End::DiskFault = end else {
        return match container.flush() {
            Ok(()) => end,
            Err(_) => End::DiskFault,
        };
    };
    end
}

/// Plays what is left, and makes sure of what isn't acknowledged yet.
fn play_rest<'d, D: Disk>(
    alloc: Global,
    container: &mut Container<'d, D>,
    selectors: &Selectors,
) -> End
    requires claims { container.old.claims ≡ [] }
    ensures setup { container.new.setup ≡ container.old.setup }
    ensures down { IsDownAt container.new.stop result }
    ensures stands { StandsAt container.new result }
    ensures whole { is_down container.new.stop ≡ false → container.new.acked ≡ length container.new.history }
{
    container.kept();
    match container.stop() {
        Some(stop) => return close(container, end_of_stop(stop)),
        None => {}
    }
    'entries: loop {
        match advance(alloc, container, selectors) {
            Some(end) => return close(container, end),
            None => {}
        }
    }
}

/// Plays with so many workers, and then what they leave.
fn play_shared<'d, D: Disk + Send, G: Gate + Sync, R: Threads + Wait + Sync>(
    rt: &R,
    alloc: Global,
    container: Container<'d, D>,
    workers: usize,
    deployment: &Deployment,
    selectors: &Selectors,
    gate: &G,
) -> (Container<'d, D>, End)
    requires some { 0 < workers }
    requires few { workers ≤ 64 }
    requires served { IsServed (setup_told container.setup) deployment.now }
    ensures setup { setup_told result.0.setup ≡ setup_told container.entry.setup }
    ensures down { IsDownAt result.0.stop result.1 }
    ensures stands { StandsAt result.0 result.1 }
    ensures whole { is_down result.0.stop ≡ false → result.0.acked ≡ length result.0.history }
{
    let mut container = share(rt, alloc, container, workers, deployment, selectors, gate);
    container.clear_claims();
    let end = play_rest(alloc, &mut container, selectors);
    (container, end)
}

/// Plays lines on what the disk keeps, with so many workers.
pub(crate) fn play_inputs<K: Sink, D: Disk + Send, G: Gate + Sync, R: Threads + Wait + Sync>(
    rt: &R,
    alloc: Global,
    inputs: &Inputs,
    out: &mut K,
    disk: D,
    crew: Crew,
    selectors: &Selectors,
    gate: &G,
) -> (Status, D)
    requires given { IsDeployment inputs.now.deployed.bytes inputs.now.deployed.checked }
    requires checked { IsChecked inputs.now.deployed.checked.codes }
    requires crew { IsCrew crew }
    ensures played { IsPlayedTogether (document_of inputs.now.deployed) crew.mode crew.steps inputs.now.lines (K.contents out.old) (K.contents out.new) (D.disk disk) (D.disk result.1) result.0 }
    ensures write { result.0 ≡ Status.WriteFault → Rose (K.faults out.old) (K.faults out.new) }
    ensures late { IsBeforeOpening result.0 → ⊥ }
{
    play_document(
        rt,
        alloc,
        inputs.deployed.checked.deployment(),
        inputs.deployed.bytes.as_slice(),
        &inputs.lines,
        out,
        disk,
        crew,
        selectors,
        gate,
    )
}

/// Plays lines for a deployment, whose document has these bytes, on what the disk keeps, with so many workers.
fn play_document<'d, K: Sink, D: Disk + Send, G: Gate + Sync, R: Threads + Wait + Sync>(
    rt: &R,
    alloc: Global,
    deployment: &'d Deployment,
    bytes: &'d [u8],
    lines: &'d Signals,
    out: &mut K,
    disk: D,
    crew: Crew,
    selectors: &Selectors,
    gate: &G,
) -> (Status, D)
    requires given { IsDeployment bytes.now deployment.now }
    requires checked { IsChecked deployment.now.codes }
    requires crew { IsCrew crew }
    ensures played { IsPlayedTogether (document_on bytes.now deployment.now) crew.mode crew.steps lines.now (K.contents out.old) (K.contents out.new) (D.disk disk) (D.disk result.1) result.0 }
    ensures write { result.0 ≡ Status.WriteFault → Rose (K.faults out.old) (K.faults out.new) }
    ensures late { IsBeforeOpening result.0 → ⊥ }
{
    let container = match open_journal(
        alloc, deployment, bytes, lines, disk, crew.mode, crew.steps, selectors,
    ) {
        Ok(container) => container,
        Err((stood, disk)) => return (refuse(out, stood), disk),
    };
    container.kept();
    let (container, end) = play_shared(
        rt,
        alloc,
        container,
        crew.workers,
        deployment,
        selectors,
        gate,
    );
    container.kept();
    let stood = status_after(container.history().len(), end);
    let status = finish(alloc, out, &container, Report::Trace, stood);
    (status, container.into_disk())
}
