//! Compacting the journal.
ghost use Rattle.std.specs.Prelude.{◌≡◌, false};
ghost use Rattle.router_durable.specs.Core.{is_down};
ghost use Rattle.slee_container.specs.Compacting.{Compacts};

use crate::Container;
use commit_journal::BeginFault;
use slee_disk::Disk;

impl<'d, D: Disk> Container<'d, D> {
    /// Writes a snapshot of the state to the other side of the journal, in place of its records, and answers the generation of
    /// that side. It is for a run that may have no entries.
    pub fn compact(&mut self) -> Result<u64, BeginFault>
        requires none { self.old.setup.steps ≡ 0 }
        requires live { is_down self.old.stop ≡ false }
        ensures { Compacts (D.disk self.old.disk) (D.disk self.new.disk) self.old result self.new }
    {
        self.core.compact()
    }
}
