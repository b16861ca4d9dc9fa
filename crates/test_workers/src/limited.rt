//! A container that several workers share, over a journal that may have so many bytes.
ghost use Rattle.std.specs.Prelude.{◌≡◌, ◌<◌, ◌≤◌, ◌^◌, Ok, IfOk, length};
ghost use Rattle.commit_journal.specs.declared.limits.TheConstants.{SIDE_LIMIT};
ghost use Rattle.deploy_json.specs.Checking.{read_as, reading_of};
ghost use Rattle.script_types.specs.ProgramOf.{IsChecked};
ghost use Rattle.slee_container.specs.Turns.{setup_told};
ghost use Rattle.worker_gate.specs.Works.{IsServed};

use commit_journal::SIDE_LIMIT;
use deploy_json::read_deployment;
use handler_check::Checked;
use initial_select::{SelectRule, Selector, Selectors, custom_name};
use router_durable::Stop;
use signal_script::{Signals, read_signals};
use slee_container::{Container, Limits, Mode};
use slee_descriptor::Deployment;
use slee_disk::{MemoryDisk, Side};
use slee_value::{Blob, NoMemory};
use std::alloc::Global;
use std::mem;
use std::sync::Wait;
use std::thread::Threads;
use worker_gate::OpenGate;
use worker_threads::share;

/// More bytes than a document of the tests has.
const DOCUMENT_LIMIT: usize = 1024;

/// More entries than the tests make.
const STEPS: u64 = 100;

const WORKERS: usize = 3;

/// What workers left.
#[derive(Clone, Copy)]
pub struct Left {
    pub stop: Option<Stop>,
    pub entries: u64,
    /// How many bytes the journal has.
    pub bytes: u64,
}

// A container with all lines before it.
#[tactic(auto, using(crate::proofs::Facts::own_read, crate::proofs::Facts::served, router_laws_keepable::proofs::Keepable::keepable_read))]
fn opened<'d>(
    alloc: Global,
    limit: u64,
    deployment: &'d Deployment,
    bytes: &'d [u8],
    lines: &'d Signals,
    selectors: &Selectors,
) -> Result<Container<'d, MemoryDisk>, NoMemory>
    requires limit { limit ≤ SIDE_LIMIT }
    requires read { reading_of bytes.now ≡ Ok (read_as deployment.now) }
    requires checked { IsChecked deployment.now.codes }
    requires short { length bytes.now < 2 ^ 32 }
    ensures served { IfOk result (λ c. IsServed (setup_told c.setup) deployment.now) }
{
    let limits = Limits {
        journal: limit,
        steps: STEPS,
    };
    let disk = MemoryDisk::new(alloc, Blob::new(alloc), Blob::new(alloc), Blob::new(alloc))?;
    match Container::open(
        alloc,
        disk,
        deployment,
        bytes,
        lines,
        Mode::AllNew,
        limits,
        selectors,
    ) {
        Ok(container) => Ok(container),
        Err((_, disk)) => {
            mem::forget(disk);
            Err(NoMemory)
        }
    }
}

// What is left of a container; what isn't acknowledged yet is written, unless it is stopped.
fn left_of<'d>(mut container: Container<'d, MemoryDisk>) -> Left {
    let stop = container.stop();
    if stop.is_none() {
        let _ = container.flush();
    }
    let entries = container.history().len();
    let disk = container.into_disk();
    let bytes = disk.side(Side::A).len() as u64;
    mem::forget(disk);
    Left {
        stop,
        entries,
        bytes,
    }
}

// What workers leave of a container by these selectors.
fn shared_by<'d, R: Threads + Wait + Sync>(
    rt: &R,
    alloc: Global,
    limit: u64,
    deployment: &'d Deployment,
    bytes: &'d [u8],
    lines: &'d Signals,
    selectors: &Selectors,
) -> Result<Left, NoMemory>
    requires limit { limit ≤ SIDE_LIMIT }
    requires read { reading_of bytes.now ≡ Ok (read_as deployment.now) }
    requires checked { IsChecked deployment.now.codes }
    requires short { length bytes.now < 2 ^ 32 }
{
    match opened(alloc, limit, deployment, bytes, lines, selectors) {
        Ok(container) => Ok(left_of(share(
            rt, alloc, container, WORKERS, deployment, selectors, &OpenGate,
        ))),
        Err(NoMemory) => Err(NoMemory),
    }
}

// The same by the selectors of all rules.
fn shared_on<R: Threads + Wait + Sync>(
    rt: &R,
    alloc: Global,
    limit: u64,
    deployment: &Deployment,
    bytes: &[u8],
    lines: &Signals,
) -> Result<Left, NoMemory>
    requires limit { limit ≤ SIDE_LIMIT }
    requires read { reading_of bytes.now ≡ Ok (read_as deployment.now) }
    requires checked { IsChecked deployment.now.codes }
    requires short { length bytes.now < 2 ^ 32 }
{
    let whole = Box::new(alloc, move |text: &[u8]| {
        custom_name(alloc, SelectRule::Whole, text)
    })?;
    let digits3 = Box::new(alloc, move |text: &[u8]| {
        custom_name(alloc, SelectRule::Digits3, text)
    })?;
    let scheme = Box::new(alloc, move |text: &[u8]| {
        custom_name(alloc, SelectRule::Scheme, text)
    })?;
    let screened = Box::new(alloc, move |text: &[u8]| {
        custom_name(alloc, SelectRule::Screened, text)
    })?;
    let selectors = Selectors::new(
        Selector::new(SelectRule::Whole, whole),
        Selector::new(SelectRule::Digits3, digits3),
        Selector::new(SelectRule::Scheme, scheme),
        Selector::new(SelectRule::Screened, screened),
    );
    shared_by(rt, alloc, limit, deployment, bytes, lines, &selectors)
}

// The same on a text of lines.
fn shared_of<R: Threads + Wait + Sync>(
    rt: &R,
    alloc: Global,
    limit: u64,
    deployment: &Deployment,
    bytes: &[u8],
    text: &str,
) -> Result<Left, NoMemory>
    requires read { reading_of bytes.now ≡ Ok (read_as deployment.now) }
    requires checked { IsChecked deployment.now.codes }
{
    match read_signals(alloc, text.as_bytes()) {
        Ok(lines) => {
            let left = if limit <= SIDE_LIMIT && bytes.len() < DOCUMENT_LIMIT {
                shared_on(rt, alloc, limit, deployment, bytes, &lines)
            } else {
                Err(NoMemory)
            };
            mem::forget(lines);
            left
        }
        Err(_) => Err(NoMemory),
    }
}

fn deployed(alloc: Global, bytes: &[u8]) -> Result<Checked, NoMemory>
    ensures { IfOk result (λ c. reading_of bytes.now ≡ Ok (read_as c)) }
{
    match read_deployment(alloc, bytes) {
        Ok(checked) => Ok(checked),
        Err(_) => Err(NoMemory),
    }
}

/// What three workers leave of lines of a deployment, over a journal that may have so many bytes.
pub fn left_within<R: Threads + Wait + Sync>(
    rt: &R,
    alloc: Global,
    limit: u64,
    deployment: &str,
    lines: &str,
) -> Result<Left, NoMemory> {
    let bytes = deployment.as_bytes();
    let checked = deployed(alloc, bytes)?;
    let left = shared_of(rt, alloc, limit, checked.deployment(), bytes, lines);
    mem::forget(checked);
    left
}
