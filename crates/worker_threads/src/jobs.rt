//! Workers in threads of their own, and the passes by which they take turns.
ghost use Rattle.std.specs.Prelude.{◌≡◌, ◌<◌, ◌≤◌, [], length, vec_capacity};
ghost use Rattle.std.specs.Fork.{AcceptsEach, ChangesEach};
ghost use Rattle.worker_gate.specs.Works.{IsServed};
ghost use Rattle.worker_threads.specs.Seats.{AreLater, AreReady, AreSeated, HasGiven, HasOut, IsLaterJob, IsReady};

use initial_select::Selectors;
use slee_container::Container;
use slee_descriptor::Deployment;
use slee_disk::Disk;
use slee_turn::{Grows, Pass, Turnstile};
use std::alloc::Global;
use std::sync::Wait;
use std::thread;
use std::thread::Threads;
use worker_gate::{Gate, Hand, work};

/// A worker, with all that it needs in its thread. (It is generic in all that it lends, so that it is known to pass to a thread where
/// that does, and so that its type says nothing of the selectors' closures.)
pub(crate) struct Job<'t, G: Grows + Send, P, S, K: Gate, R: Wait> {
    pub(crate) rt: &'t R,
    pub(crate) alloc: Global,
    pub(crate) turn: &'t Turnstile<G>,
    pub(crate) deployment: &'t P,
    pub(crate) selectors: &'t S,
    pub(crate) gate: &'t K,
    pub(crate) worker: Hand<G>,
}

/// Works, until nothing is to be done or nothing may be.
fn do_job<'t, 'd, D: Disk + Send, K: Gate, R: Wait>(
    job: &mut Job<'t, Container<'d, D>, Deployment, Selectors, K, R>,
)
    requires { IsReady job.old }
    ensures { IsLaterJob job.old job.new }
{
    work(
        job.rt,
        job.alloc,
        &mut job.worker,
        job.turn,
        job.deployment,
        job.selectors,
        job.gate,
    );
}

/// Calls the function on each element, each in a thread of its own.
fn each_of<T: Send, F: Fn(usize, &mut T) + Sync, R: Threads + Sync>(
    rt: &R,
    items: &mut Vec<T>,
    f: &F,
)
    requires some { 0 < length items.old.items }
    requires accepts { AcceptsEach F.Fn f.now items.old.items }
    ensures len { length items.new.items ≡ length items.old.items }
    ensures each { ChangesEach F.Fn f.now items.old.items items.new.items }
{
    let count = items.len();
    thread::for_each_mut(rt, items.as_mut_slice(), count, f);
}

/// Does each job in a thread of its own.
pub(crate) fn do_jobs<'t, 'd, D: Disk + Send, K: Gate + Sync, R: Threads + Wait + Sync>(
    rt: &R,
    jobs: &mut Vec<Job<'t, Container<'d, D>, Deployment, Selectors, K, R>>,
)
    requires some { 0 < length jobs.old.items }
    requires ready { AreReady jobs.old.items }
    ensures len { length jobs.new.items ≡ length jobs.old.items }
    ensures later { AreLater jobs.old.items jobs.new.items }
{
    each_of(
        rt,
        jobs,
        &|_, job|
            requires { IsReady job.old }
            ensures { IsLaterJob job.old job.new }
        { do_job(job) },
    );
}

/// Gives each worker a pass. The workers are numbered from 1.
pub(crate) fn seat_workers<'t, 'd, D: Disk + Send, K: Gate, R: Wait>(
    rt: &'t R,
    alloc: Global,
    turn: &'t Turnstile<Container<'d, D>>,
    deployment: &'t Deployment,
    selectors: &'t Selectors,
    gate: &'t K,
    pass: &mut Pass<Container<'d, D>>,
    jobs: &mut Vec<Job<'t, Container<'d, D>, Deployment, Selectors, K, R>>,
    count: usize,
)
    requires pass { HasOut turn.now pass.old.known.setup pass.old.known.seen 0 pass.old }
    requires given { HasGiven 0 pass.old }
    requires served { IsServed pass.old.known.setup deployment.now }
    requires none { jobs.old.items ≡ [] }
    requires room { count ≤ vec_capacity jobs.old }
    requires few { count ≤ 64 }
    ensures pass { HasOut turn.now pass.old.known.setup pass.old.known.seen count pass.new }
    ensures seen { pass.new.known.seen ≡ pass.old.known.seen }
    ensures len { length jobs.new.items ≡ count }
    ensures seated { AreSeated turn.now pass.old.known.seen jobs.new.items }
    ensures ready { AreReady jobs.new.items }
{
    for number in 0..count {
        let job = Job {
            rt,
            alloc,
            turn,
            deployment,
            selectors,
            gate,
            worker: Hand {
                number: number as u64 + 1,
                pass: turn.split(pass),
            },
        };
        let pushed = jobs.push(job);
        let Ok(()) = pushed else { unreachable!() };
    }
}

/// Takes the passes back, the last first.
pub(crate) fn join_workers<'t, 'd, D: Disk + Send, K: Gate, R: Wait>(
    turn: &Turnstile<Container<'d, D>>,
    pass: &mut Pass<Container<'d, D>>,
    mut jobs: Vec<Job<'t, Container<'d, D>, Deployment, Selectors, K, R>>,
)
    requires pass { HasOut turn.now pass.old.known.setup pass.old.known.seen (length jobs.items) pass.old }
    requires jobs { AreSeated turn.now pass.old.known.seen jobs.items }
    ensures { HasOut turn.now pass.old.known.setup pass.old.known.seen 0 pass.new }
{
    while let Some(job) = jobs.pop() {
        let Job {
            rt: _,
            alloc: _,
            turn: _,
            deployment: _,
            selectors: _,
            gate: _,
            worker,
        } = job;
        let Hand {
            number: _,
            pass: other,
        } = worker;
        turn.join(pass, other);
    }
    jobs.destroy_empty();
}
