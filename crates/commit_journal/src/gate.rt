//! Gates: what stands behind one counts only while it is open.
ghost use Rattle.std.specs.Prelude.{◌≡◌, ◌<◌, ◌≤◌, ◌+◌, ◌^◌, length, take, IsTrue, OnOk, IsErr};
ghost use Rattle.slee_disk.specs.Causes.{Rose};
ghost use Rattle.slee_disk.specs.Sides.{on, other};
ghost use Rattle.slee_disk.specs.Disk.{LeavesOnly, is_clean};
ghost use Rattle.commit_journal.specs.Beginning.{MayLeave};
ghost use Rattle.commit_journal.specs.Gate.{EndsShut, IsShutOrOpen, IsOpened};
ghost use Rattle.commit_journal.specs.Settling.{SettlesSide};

use slee_disk::{Disk, Failed, Side};

/// The byte of an open gate. A gate of any other byte is closed.
pub(crate) const OPEN_GATE: u8 = 1;

/// The byte that is written for a closed gate.
pub(crate) const CLOSED_GATE: u8 = 0;

/// Writes bytes behind the closed gate that ends a side, and then opens the gate.
pub(crate) fn open_gate<D: Disk>(
    disk: &mut D,
    side: Side,
    at: u64,
    bytes: &[u8],
) -> Result<(), Failed>
    requires room { at + 1 < 2 ^ 64 }
    requires shut { IsTrue (D.disk disk.old).told → EndsShut side at (D.disk disk.old).seen }
    ensures opened { IsTrue (D.disk disk.old).told → OnOk result
        (IsOpened side (take at (on side (D.disk disk.old).seen)) bytes.now (on (other side) (D.disk disk.old).seen) (D.disk disk.new).seen) }
    ensures any_moment { IsTrue (is_clean (D.disk disk.old)) → LeavesOnly (D.disk disk.old) (D.disk disk.new)
        (IsShutOrOpen side (take at (on side (D.disk disk.old).seen)) bytes.now (on (other side) (D.disk disk.old).seen)) }
    ensures stays { MayLeave side 0 (D.disk disk.old) (D.disk disk.new) }
    ensures settled { SettlesSide side (D.disk disk.old) (D.disk disk.new) result }
    ensures told { (D.disk disk.new).told ≡ (D.disk disk.old).told }
    ensures rising { (D.disk disk.old).faults ≤ (D.disk disk.new).faults }
    ensures cause { IsErr result → Rose (D.disk disk.old).faults (D.disk disk.new).faults }
{
    disk.write_at(side, at + 1, bytes)?;
    disk.sync(side)?;
    disk.write_at(side, at, &[OPEN_GATE])?;
    disk.sync(side) // From here on it counts.
}
