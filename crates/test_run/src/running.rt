//! One run of the program over objects in memory. Its functions are short, since each is proved with all that it drops.
ghost use Rattle.std.specs.Prelude.{◌≡◌, None};
ghost use Rattle.slee_run.specs.Many.{crew_in};
ghost use Rattle.slee_run.specs.Words.{texts};

use crate::one_call::SERVICE;
use initial_select::{SelectRule, Selector, Selectors, custom_name};
use slee_disk::{MemoryDisk, MemorySink, MemorySource};
use slee_run::{crew_in, run_one};
use slee_value::{Blob, NoMemory};
use std::alloc::Global;

/// In place of a status: the words ask for several workers, which these tests don't run.
const OF_SEVERAL: u8 = 255;

/// What a run printed, the status that it ended with, and the disk that it left.
#[derive(Drop)]
pub struct Ran {
    pub code: u8,
    pub out: MemorySink,
    pub disk: MemoryDisk,
}

/// What a run printed.
pub fn text_of(ran: &Ran) -> &str {
    str::from_utf8(ran.out.bytes()).unwrap_or("no text")
}

/// A disk with these bytes on its sides.
pub fn disk_of(alloc: Global, a: &[u8], b: &[u8]) -> Result<MemoryDisk, NoMemory> {
    let a = Blob::from_slice(alloc, a)?;
    let b = Blob::from_slice(alloc, b)?;
    MemoryDisk::new(alloc, a, b, Blob::new(alloc))
}

/// A disk on which nothing was written. Its k-th call fails where the k-th of `fails` is 1.
pub fn failing_disk(alloc: Global, fails: &[u8]) -> Result<MemoryDisk, NoMemory> {
    let fails = Blob::from_slice(alloc, fails)?;
    MemoryDisk::new(alloc, Blob::new(alloc), Blob::new(alloc), fails)
}

/// A disk on which nothing was written.
pub fn empty_disk(alloc: Global) -> Result<MemoryDisk, NoMemory> {
    disk_of(alloc, b"", b"")
}

/// Lines that come in pieces of seven bytes. The k-th read fails where the k-th of `fails` is 1.
pub fn source_of(alloc: Global, lines: &[u8], fails: &[u8]) -> Result<MemorySource, NoMemory> {
    let lines = Blob::from_slice(alloc, lines)?;
    Ok(MemorySource::new(lines, 7, Blob::from_slice(alloc, fails)?))
}

/// A deployment that comes in one piece.
fn deployed(alloc: Global, deployment: &str) -> Result<MemorySource, NoMemory> {
    let bytes = Blob::from_slice(alloc, deployment.as_bytes())?;
    Ok(MemorySource::new(bytes, 1_048_577, Blob::new(alloc)))
}

/// Runs words on a deployment.
pub fn run(
    alloc: Global,
    words: &[&str],
    deployment: &str,
    signals: MemorySource,
    out: MemorySink,
    disk: MemoryDisk,
) -> Result<Ran, NoMemory> {
    let deploy = deployed(alloc, deployment)?;
    run_on(alloc, words, deploy, signals, out, disk)
}

/// What a run is given. It is let go in one place.
struct Given {
    deploy: MemorySource,
    signals: MemorySource,
    out: MemorySink,
    disk: MemoryDisk,
}

impl Drop for Given {
    fn drop(self) {
        let Self {
            deploy: _,
            signals: _,
            out: _,
            disk: _,
        } = self;
    }
}

impl Given {
    /// Runs words of one worker on it, with these selectors.
    fn run(self, alloc: Global, words: &[&str], selectors: &Selectors) -> Ran
        requires { crew_in (texts words.now) ≡ None }
    {
        let Self {
            mut deploy,
            mut signals,
            mut out,
            disk,
        } = self;
        let (status, disk) = run_one(
            alloc,
            words,
            &mut deploy,
            &mut signals,
            &mut out,
            disk,
            selectors,
        );
        Ran {
            code: status.code(),
            out,
            disk,
        }
    }

    /// Doesn't run words that ask for several workers.
    fn refuse(self) -> Ran {
        let Self {
            deploy: _,
            signals: _,
            out,
            disk,
        } = self;
        Ran {
            code: OF_SEVERAL,
            out,
            disk,
        }
    }
}

/// Runs words on a deployment that comes from a source.
pub fn run_on(
    alloc: Global,
    words: &[&str],
    deploy: MemorySource,
    signals: MemorySource,
    out: MemorySink,
    disk: MemoryDisk,
) -> Result<Ran, NoMemory> {
    let given = Given {
        deploy,
        signals,
        out,
        disk,
    };
    run_given(alloc, words, given)
}

/// Runs words on what it is given, with the selectors of all rules.
fn run_given(alloc: Global, words: &[&str], given: Given) -> Result<Ran, NoMemory> {
    let whole = Box::new(alloc, move |text: &[u8]| {
        custom_name(alloc, SelectRule::Whole, text)
    })?;
    let digits3 = Box::new(alloc, move |text: &[u8]| {
        custom_name(alloc, SelectRule::Digits3, text)
    })?;
    let scheme = Box::new(alloc, move |text: &[u8]| {
        custom_name(alloc, SelectRule::Scheme, text)
    })?;
    let screened = Box::new(alloc, move |text: &[u8]| {
        custom_name(alloc, SelectRule::Screened, text)
    })?;
    let selectors = Selectors::new(
        Selector::new(SelectRule::Whole, whole),
        Selector::new(SelectRule::Digits3, digits3),
        Selector::new(SelectRule::Scheme, scheme),
        Selector::new(SelectRule::Screened, screened),
    );
    match crew_in(words) {
        None => Ok(given.run(alloc, words, &selectors)),
        Some(_) => Ok(given.refuse()),
    }
}

/// Which reads of the lines and which writes of the text fail: the k-th where the k-th is 1.
#[derive(Clone, Copy)]
pub struct Failing<'a> {
    pub reads: &'a [u8],
    pub writes: &'a [u8],
}

/// Nothing fails.
pub const SOUND: Failing<'static> = Failing {
    reads: &[],
    writes: &[],
};

/// Runs words on lines of the service, with these reads and writes failing.
pub fn run_failing(
    alloc: Global,
    words: &[&str],
    lines: &[u8],
    failing: Failing<'_>,
    disk: MemoryDisk,
) -> Result<Ran, NoMemory> {
    let signals = source_of(alloc, lines, failing.reads)?;
    let out = MemorySink::new(alloc, Blob::from_slice(alloc, failing.writes)?);
    run(alloc, words, SERVICE, signals, out, disk)
}

/// Runs words on lines of the service over an empty disk, with these reads and writes failing.
pub fn run_alone(
    alloc: Global,
    words: &[&str],
    lines: &[u8],
    failing: Failing<'_>,
) -> Result<Ran, NoMemory> {
    let disk = empty_disk(alloc)?;
    run_failing(alloc, words, lines, failing, disk)
}

/// Runs words on lines of the service over a disk, where nothing fails but what the disk fails.
pub fn run_over(
    alloc: Global,
    words: &[&str],
    lines: &str,
    disk: MemoryDisk,
) -> Result<Ran, NoMemory> {
    run_deployed(alloc, words, SERVICE, lines, disk)
}

/// The same on lines of another deployment.
pub fn run_deployed(
    alloc: Global,
    words: &[&str],
    deployment: &str,
    lines: &str,
    disk: MemoryDisk,
) -> Result<Ran, NoMemory> {
    let signals = source_of(alloc, lines.as_bytes(), &[])?;
    let out = MemorySink::new(alloc, Blob::new(alloc));
    run(alloc, words, deployment, signals, out, disk)
}

/// What has to come of a run.
#[derive(Clone, Copy)]
pub struct Wanted {
    pub code: u8,
    pub printed: &'static str,
}
