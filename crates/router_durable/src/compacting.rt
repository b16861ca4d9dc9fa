//! Journals that are compacted.
ghost use Rattle.std.specs.Prelude.{◌≡◌, [], false};
ghost use Rattle.router_durable.specs.Compacting.{Compacts};
ghost use Rattle.router_durable.specs.Core.{is_down, lifted};

use crate::{Core, Stop};
use commit_journal::BeginFault;
use slee_disk::Disk;
use std::snapshot::Snapshot;

impl<'d, D: Disk> Core<'d, D> {
    /// Goes on with the other side of the journal, on which a snapshot of the state stands for all records, and answers its
    /// generation. It needs that no entry stands since the opening, and is an opening of its own.
    pub fn compact(&mut self) -> Result<u64, BeginFault>
        requires live { is_down self.old.stop ≡ false }
        requires none { self.old.history ≡ [] }
        ensures { Compacts (D.disk self.old.disk) (D.disk self.new.disk) self.old result self.new }
    {
        let Ok(text) = self.state.snapshot_text(self.alloc, self.deployment) else {
            return Err(BeginFault::NoMemory);
        };
        match self.journal.renew(&text) {
            Ok(generation) => {
                let opened = Snapshot::of(self.journal.disk());
                let read = Snapshot::of(&self.journal);
                let begun = Snapshot::of(&self.journal);
                let start = Snapshot::of(&self.state);
                self.opened = opened;
                self.read = read;
                self.begun = begun;
                self.start = start;
                self.stop = lifted(self.stop);
                Ok(generation)
            }
            Err(BeginFault::DiskFault) => {
                self.torn = true;
                self.stop = Some(Stop::DiskFault);
                Err(BeginFault::DiskFault)
            }
            Err(BeginFault::Full { length, adding }) => Err(BeginFault::Full { length, adding }),
            Err(BeginFault::NoMemory) => Err(BeginFault::NoMemory),
        }
    }
}

/// A stop for want of room is lifted.
fn lifted(stop: Option<Stop>) -> Option<Stop>
    ensures { result ≡ lifted stop }
{
    match stop {
        None | Some(Stop::Full { .. }) => None,
        Some(Stop::DiskFault) => Some(Stop::DiskFault),
        Some(Stop::NoMemory) => Some(Stop::NoMemory),
    }
}
