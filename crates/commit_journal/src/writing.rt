//! A batch on its way to the disk.
ghost use Rattle.std.specs.Prelude.{◌≡◌, ◌≢◌, ◌<◌, ◌≤◌, ◌+◌, ◌^◌, [], take, IsTrue, OnOk, IsErr};
ghost use Rattle.slee_disk.specs.Causes.{Rose};
ghost use Rattle.slee_disk.specs.Sides.{on, other, AtSide};
ghost use Rattle.slee_disk.specs.Disk.{LeavesOnly, is_clean};
ghost use Rattle.commit_journal.specs.Beginning.{MayLeave};
ghost use Rattle.commit_journal.specs.Gate.{EndsShut};
ghost use Rattle.commit_journal.specs.Spelling.{records_size};
ghost use Rattle.commit_journal.specs.Reading.{Kept};
ghost use Rattle.commit_journal.specs.Kept.{StandsIn, StandsFound, Keeps, with_more, KeepsOrMore};
ghost use Rattle.commit_journal.specs.Written.{IsWritten, IsUntouched};

use crate::batch::Batch;
use crate::gate::open_gate;
use crate::reading::other_of;
use slee_disk::{Disk, Failed, Side};

/// Writes a batch behind the closed gate that ends a side.
pub(crate) fn write_batch<D: Disk>(
    disk: &mut D,
    side: Side,
    at: u64,
    batch: &Batch,
) -> Result<(), Failed>
    requires some { batch.now ≢ [] }
    requires room { at + 1 < 2 ^ 64 }
    requires shut { IsTrue (D.disk disk.old).told → EndsShut side at (D.disk disk.old).seen }
    ensures acknowledged { (kept : Kept) → kept.side ≡ side → IsTrue (D.disk disk.old).told → StandsIn kept at [] (D.disk disk.old).seen
        → OnOk result (StandsIn (with_more kept batch.now) (at + records_size batch.now) [] (D.disk disk.new).seen) }
    ensures written { (kept : Kept) → kept.side ≡ side → IsTrue (D.disk disk.old).told → StandsIn kept at [] (D.disk disk.old).seen
        → OnOk result (IsWritten (with_more kept batch.now) (D.disk disk.new).seen) }
    ensures beside { IsTrue (D.disk disk.old).told → OnOk result (IsUntouched (other side) (D.disk disk.old).seen (D.disk disk.new).seen) }
    ensures any_moment { (kept : Kept) → kept.side ≡ side → IsTrue (is_clean (D.disk disk.old)) → StandsIn kept at [] (D.disk disk.old).seen
        → LeavesOnly (D.disk disk.old) (D.disk disk.new) (KeepsOrMore kept batch.now) }
    ensures rest { IsTrue (is_clean (D.disk disk.old)) → OnOk result (IsTrue (is_clean (D.disk disk.new))) }
    ensures told { (D.disk disk.new).told ≡ (D.disk disk.old).told }
    ensures rising { (D.disk disk.old).faults ≤ (D.disk disk.new).faults }
    ensures cause { IsErr result → Rose (D.disk disk.old).faults (D.disk disk.new).faults }
{
    open_gate(disk, side, at, batch.behind())
}

/// Makes sure of the other side, and cuts what stands behind the last gate of this one.
pub(crate) fn cut_behind<D: Disk>(disk: &mut D, side: Side, at: u64) -> Result<(), Failed>
    requires { at + 1 < 2 ^ 64 }
    ensures ready { (kept : Kept) → kept.side ≡ side → IsTrue (D.disk disk.old).told → StandsFound kept at (D.disk disk.old).seen
        → OnOk result (StandsIn kept at [] (D.disk disk.new).seen) }
    ensures cut { IsTrue (D.disk disk.old).told → OnOk result (AtSide side (λ old new. new ≡ take (at + 1) old) (D.disk disk.old).seen (D.disk disk.new).seen) }
    ensures any_moment { (kept : Kept) → kept.side ≡ side → IsTrue (is_clean (D.disk disk.old)) → StandsFound kept at (D.disk disk.old).seen
        → LeavesOnly (D.disk disk.old) (D.disk disk.new) (Keeps kept) }
    ensures stays { MayLeave side (at + 1) (D.disk disk.old) (D.disk disk.new) }
    ensures rest { IsTrue (D.disk disk.old).told → OnOk result (IsTrue (is_clean (D.disk disk.new))) }
    ensures told { (D.disk disk.new).told ≡ (D.disk disk.old).told }
    ensures rising { (D.disk disk.old).faults ≤ (D.disk disk.new).faults }
    ensures cause { IsErr result → Rose (D.disk disk.old).faults (D.disk disk.new).faults }
{
    disk.sync(other_of(side))?;
    disk.cut(side, at + 1)?;
    disk.sync(side)
}
