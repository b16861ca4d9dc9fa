//! Several workers on one container.
ghost use Rattle.std.specs.Prelude.{◌≤◌, ◌<◌};
ghost use Rattle.slee_container.specs.Turns.{setup_told};
ghost use Rattle.worker_gate.specs.Works.{IsServed};
ghost use Rattle.worker_threads.specs.Seats.{HasGiven, HasOut};
ghost use Rattle.worker_threads.specs.Sharing.{GoesOnWith, IsOf};

use crate::jobs::{do_jobs, join_workers, seat_workers};
use initial_select::Selectors;
use slee_container::Container;
use slee_descriptor::Deployment;
use slee_disk::Disk;
use slee_turn::{Pass, Turnstile};
use slee_value::NoMemory;
use std::alloc::Global;
use std::sync::Wait;
use std::thread::Threads;
use worker_gate::Gate;

/// The same container, stopped for want of memory.
#[tactic(auto, using(crate::proofs::SeatLemmas::same_goes))]
fn halted<'d, D: Disk>(mut container: Container<'d, D>) -> Container<'d, D>
    ensures { GoesOnWith container.entry result }
{
    container.halt_memory();
    container
}

/// So many workers work on what a turnstile has, each in a thread of its own, until nothing is to be done, or nothing may be. Where
/// there is no memory to begin with, it is stopped for that.
#[tactic(auto, using(crate::proofs::SeatLemmas::shared, crate::proofs::SeatLemmas::unshared))]
fn share_by<'d, D: Disk + Send, G: Gate + Sync, R: Threads + Wait + Sync>(
    rt: &R,
    alloc: Global,
    turn: Turnstile<Container<'d, D>>,
    mut pass: Pass<Container<'d, D>>,
    workers: usize,
    deployment: &Deployment,
    selectors: &Selectors,
    gate: &G,
) -> Container<'d, D>
    requires some { 0 < workers }
    requires few { workers ≤ 64 }
    requires pass { HasOut turn pass.known.setup pass.known.seen 0 pass }
    requires given { HasGiven 0 pass }
    requires served { IsServed pass.known.setup deployment.now }
    ensures { IsOf pass.entry.known result }
{
    let Ok(mut jobs) = Vec::with_capacity(alloc, workers) else {
        return halted(turn.close(pass));
    };
    seat_workers(
        rt, alloc, &turn, deployment, selectors, gate, &mut pass, &mut jobs, workers,
    );
    do_jobs(rt, &mut jobs);
    join_workers(&turn, &mut pass, jobs);
    turn.close(pass)
}

/// So many workers work on a container, each in a thread of its own, until nothing is to be done, or nothing may be. Where there is
/// no memory to begin with, it is stopped for that.
#[tactic(auto, using(crate::proofs::SeatLemmas::first_out, crate::proofs::SeatLemmas::first_given, crate::proofs::SeatLemmas::served_first, crate::proofs::SeatLemmas::of_first))]
pub fn share<'d, D: Disk + Send, G: Gate + Sync, R: Threads + Wait + Sync>(
    rt: &R,
    alloc: Global,
    container: Container<'d, D>,
    workers: usize,
    deployment: &Deployment,
    selectors: &Selectors,
    gate: &G,
) -> Container<'d, D>
    requires some { 0 < workers }
    requires few { workers ≤ 64 }
    requires served { IsServed (setup_told container.setup) deployment.now }
    ensures { GoesOnWith container.entry result }
{
    match Turnstile::new(alloc, container) {
        Ok((turn, pass)) => share_by(rt, alloc, turn, pass, workers, deployment, selectors, gate),
        Err((NoMemory, container)) => halted(container),
    }
}
