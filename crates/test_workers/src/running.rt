//! One run of several workers over objects in memory. Its functions are short, since each is proved with all that it drops.
use initial_select::{SelectRule, Selector, Selectors, custom_name};
use slee_disk::{MemoryDisk, MemorySink, MemorySource};
use slee_run::run;
use slee_value::{Blob, NoMemory};
use std::alloc::Global;
use std::sync::Wait;
use std::thread::Threads;
use test_run::running::{Ran, empty_disk, source_of};
use worker_gate::Gate;

/// What a run is given. It is let go in one place.
struct Given {
    deploy: MemorySource,
    signals: MemorySource,
    out: MemorySink,
    disk: MemoryDisk,
}

impl Drop for Given {
    fn drop(self) {
        let Self {
            deploy: _,
            signals: _,
            out: _,
            disk: _,
        } = self;
    }
}

impl Given {
    /// Runs words on it, with these selectors and this gate.
    fn run<G: Gate + Sync, R: Threads + Wait + Sync>(
        self,
        rt: &R,
        alloc: Global,
        words: &[&str],
        selectors: &Selectors,
        gate: &G,
    ) -> Ran {
        let Self {
            mut deploy,
            mut signals,
            mut out,
            disk,
        } = self;
        let (status, disk) = run(
            rt,
            alloc,
            words,
            &mut deploy,
            &mut signals,
            &mut out,
            disk,
            selectors,
            gate,
        );
        Ran {
            code: status.code(),
            out,
            disk,
        }
    }
}

/// Runs words on lines of a deployment, over an empty disk.
pub fn run_by<G: Gate + Sync, R: Threads + Wait + Sync>(
    rt: &R,
    alloc: Global,
    words: &[&str],
    deployment: &str,
    lines: &str,
    gate: &G,
) -> Result<Ran, NoMemory> {
    let disk = empty_disk(alloc)?;
    run_over(rt, alloc, words, deployment, lines, disk, gate)
}

/// The same over a disk.
pub fn run_over<G: Gate + Sync, R: Threads + Wait + Sync>(
    rt: &R,
    alloc: Global,
    words: &[&str],
    deployment: &str,
    lines: &str,
    disk: MemoryDisk,
    gate: &G,
) -> Result<Ran, NoMemory> {
    let given = Given {
        deploy: source_of(alloc, deployment.as_bytes(), &[])?,
        signals: source_of(alloc, lines.as_bytes(), &[])?,
        out: MemorySink::new(alloc, Blob::new(alloc)),
        disk,
    };
    run_given(rt, alloc, words, given, gate)
}

/// Runs words on what it is given, with the selectors of all rules.
fn run_given<G: Gate + Sync, R: Threads + Wait + Sync>(
    rt: &R,
    alloc: Global,
    words: &[&str],
    given: Given,
    gate: &G,
) -> Result<Ran, NoMemory> {
    let whole = Box::new(alloc, move |text: &[u8]| {
        custom_name(alloc, SelectRule::Whole, text)
    })?;
    let digits3 = Box::new(alloc, move |text: &[u8]| {
        custom_name(alloc, SelectRule::Digits3, text)
    })?;
    let scheme = Box::new(alloc, move |text: &[u8]| {
        custom_name(alloc, SelectRule::Scheme, text)
    })?;
    let screened = Box::new(alloc, move |text: &[u8]| {
        custom_name(alloc, SelectRule::Screened, text)
    })?;
    let selectors = Selectors::new(
        Selector::new(SelectRule::Whole, whole),
        Selector::new(SelectRule::Digits3, digits3),
        Selector::new(SelectRule::Scheme, scheme),
        Selector::new(SelectRule::Screened, screened),
    );
    Ok(given.run(rt, alloc, words, &selectors, gate))
}
