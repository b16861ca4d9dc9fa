//! Two runs over one disk, one after the other: what the promises of the top call say of both.
ghost use Rattle.std.specs.Prelude.{◌≡◌, ℕ, Some, None, IfOk};
ghost use Rattle.slee_container.specs.declared.container.Mode.{Mode as Lines};
ghost use Rattle.slee_descriptor.specs.declared.deployment.Deployment.{Deployment as Served};
ghost use Rattle.slee_disk.specs.MemoryDisk.{state_of};
ghost use Rattle.slee_run.specs.Given.{IsDeployment};
ghost use Rattle.slee_run.specs.Headline.{Plays};
ghost use Rattle.slee_run.specs.Many.{crew_in};
ghost use Rattle.slee_run.specs.Orderly.{IsOrderlyRun};
ghost use Rattle.slee_run.specs.Words.{texts};
ghost use Rattle.slee_run.specs.Twice.{IsUnbroken, IsOneHistory};

use crate::{Status, run_one};
use initial_select::Selectors;
use slee_disk::{MemoryDisk, MemorySink, MemorySource};
use slee_value::{Blob, NoMemory};
use std::alloc::Global;

/// How many bytes a read gives at most.
const PIECE: u64 = 4096;

/// What two runs came to.
#[derive(Drop)]
pub struct Twice {
    pub first: Status,
    pub second: Status,
    pub disk: MemoryDisk,
}

/// Plays one list of lines for a deployment on a new disk in memory, and then another on what the first has left there, with the
/// same words, which ask for one worker.
pub fn play_twice(
    alloc: Global,
    words: &[&str],
    deploy: &Blob,
    lines: Blob,
    more: Blob,
    out: &mut MemorySink,
    selectors: &Selectors,
) -> Result<Twice, NoMemory>
    requires { crew_in (texts words.now) ≡ None }
    ensures { IfOk result (λ twice. (mode : Lines) (steps : ℕ) (d : Served) → Plays (texts words.now) mode steps → IsDeployment deploy.now d → IsUnbroken twice.first → IsUnbroken twice.second
        → IsOneHistory mode steps deploy.now lines more out.old.held out.new.held d (state_of twice.disk) twice.first twice.second) }
{
    let document = deploy.copy(alloc)?;
    let again = deploy.copy(alloc)?;
    let disk = MemoryDisk::new(alloc, Blob::new(alloc), Blob::new(alloc), Blob::new(alloc))?;
    let (first, disk) = play(alloc, words, document, lines, out, disk, selectors);
    let (second, disk) = play(alloc, words, again, more, out, disk, selectors);
    Ok(Twice {
        first,
        second,
        disk,
    })
}

/// Plays lines for a deployment over a disk.
fn play(
    alloc: Global,
    words: &[&str],
    deploy: Blob,
    lines: Blob,
    out: &mut MemorySink,
    disk: MemoryDisk,
    selectors: &Selectors,
) -> (Status, MemoryDisk)
    requires { crew_in (texts words.now) ≡ None }
    ensures { IsOrderlyRun (texts words.now) (Some deploy) (Some lines) (Some out.old.held) (Some out.new.held) (state_of disk) (state_of result.1) result.0 }
{
    let mut deploy = MemorySource::new(deploy, PIECE, Blob::new(alloc));
    let mut signals = MemorySource::new(lines, PIECE, Blob::new(alloc));
    run_one(
        alloc,
        words,
        &mut deploy,
        &mut signals,
        out,
        disk,
        selectors,
    )
}
