//! Sides before they are written: blank ones, and ones whose first gate is shut.
ghost use Rattle.std.specs.Prelude.{◌≡◌, ◌<◌, ◌≤◌, ◌+◌, ◌^◌, [], IsTrue, OnOk, IsErr};
ghost use Rattle.slee_disk.specs.Causes.{Rose};
ghost use Rattle.slee_disk.specs.Sides.{on, other};
ghost use Rattle.slee_disk.specs.Disk.{LeavesOnly, is_clean};
ghost use Rattle.commit_journal.specs.Beginning.{MayLeave};
ghost use Rattle.commit_journal.specs.Gate.{EndsShut, IsOpened};
ghost use Rattle.commit_journal.specs.Blank.{IsBlankOn, BlankBeside, IsOneShut, IsBlankOrOpen, IsBlankOrSame};
ghost use Rattle.commit_journal.specs.Rewriting.{IsRewritten};
ghost use Rattle.commit_journal.specs.Settling.{SettlesSide};

use crate::gate::{CLOSED_GATE, OPEN_GATE, open_gate};
use crate::reading::other_of;
use slee_disk::{Disk, Failed, Side};

/// Closes the first gate of a side where it stands open, so that the side is blank.
fn close_side<D: Disk>(disk: &mut D, side: Side) -> Result<(), Failed>
    ensures blank { IsTrue (D.disk disk.old).told → OnOk result (BlankBeside side (on (other side) (D.disk disk.old).seen) (D.disk disk.new).seen) }
    ensures any_moment { IsTrue (is_clean (D.disk disk.old)) → LeavesOnly (D.disk disk.old) (D.disk disk.new) (IsBlankOrSame side (D.disk disk.old).seen) }
    ensures stays { MayLeave side 0 (D.disk disk.old) (D.disk disk.new) }
    ensures rest { IsTrue (is_clean (D.disk disk.old)) → OnOk result (IsTrue (is_clean (D.disk disk.new))) }
    ensures told { (D.disk disk.new).told ≡ (D.disk disk.old).told }
    ensures rising { (D.disk disk.old).faults ≤ (D.disk disk.new).faults }
    ensures cause { IsErr result → Rose (D.disk disk.old).faults (D.disk disk.new).faults }
{
    let mut first = [CLOSED_GATE; 1];
    disk.read(side, 0, &mut first)?;
    if first[0] != OPEN_GATE {
        return Ok(());
    }
    disk.write_at(side, 0, &[CLOSED_GATE])?;
    disk.sync(side)
}

/// Leaves one closed gate of a blank side, which may not be on the disk yet.
fn shut_gate<D: Disk>(disk: &mut D, side: Side) -> Result<(), Failed>
    requires { IsTrue (D.disk disk.old).told → IsBlankOn side (D.disk disk.old).seen }
    ensures shut { IsTrue (D.disk disk.old).told → OnOk result (IsOneShut side (on (other side) (D.disk disk.old).seen) (D.disk disk.new).seen) }
    ensures any_moment { IsTrue (is_clean (D.disk disk.old)) → LeavesOnly (D.disk disk.old) (D.disk disk.new) (BlankBeside side (on (other side) (D.disk disk.old).seen)) }
    ensures stays { MayLeave side 0 (D.disk disk.old) (D.disk disk.new) }
    ensures beside { (D.disk disk.new).settled (other side) ≡ (D.disk disk.old).settled (other side) }
    ensures told { (D.disk disk.new).told ≡ (D.disk disk.old).told }
    ensures rising { (D.disk disk.old).faults ≤ (D.disk disk.new).faults }
    ensures cause { IsErr result → Rose (D.disk disk.old).faults (D.disk disk.new).faults }
{
    let length = disk.len(side)?;
    if length > 1 {
        return disk.cut(side, 1);
    }
    let mut first = [OPEN_GATE; 1];
    disk.read(side, 0, &mut first)?;
    if first[0] == OPEN_GATE {
        return disk.write_at(side, 0, &[CLOSED_GATE]);
    }
    Ok(())
}

/// Leaves one closed gate of a blank side, on the disk.
fn shut_blank<D: Disk>(disk: &mut D, side: Side) -> Result<(), Failed>
    requires { IsTrue (D.disk disk.old).told → IsBlankOn side (D.disk disk.old).seen }
    ensures shut { IsTrue (D.disk disk.old).told → OnOk result (IsOneShut side (on (other side) (D.disk disk.old).seen) (D.disk disk.new).seen) }
    ensures any_moment { IsTrue (is_clean (D.disk disk.old)) → LeavesOnly (D.disk disk.old) (D.disk disk.new) (BlankBeside side (on (other side) (D.disk disk.old).seen)) }
    ensures stays { MayLeave side 0 (D.disk disk.old) (D.disk disk.new) }
    ensures settled { SettlesSide side (D.disk disk.old) (D.disk disk.new) result }
    ensures told { (D.disk disk.new).told ≡ (D.disk disk.old).told }
    ensures rising { (D.disk disk.old).faults ≤ (D.disk disk.new).faults }
    ensures cause { IsErr result → Rose (D.disk disk.old).faults (D.disk disk.new).faults }
{
    shut_gate(disk, side)?;
    disk.sync(side) // What was cut stays cut.
}

/// Makes sure of the other side, and writes a blank side anew: closed, then all behind its first gate, and then it is
/// opened.
pub(crate) fn write_side<D: Disk>(disk: &mut D, side: Side, bytes: &[u8]) -> Result<(), Failed>
    requires { IsTrue (D.disk disk.old).told → IsBlankOn side (D.disk disk.old).seen }
    ensures opened { IsTrue (D.disk disk.old).told → OnOk result (IsOpened side [] bytes.now (on (other side) (D.disk disk.old).seen) (D.disk disk.new).seen) }
    ensures any_moment { IsTrue (is_clean (D.disk disk.old)) → LeavesOnly (D.disk disk.old) (D.disk disk.new) (IsBlankOrOpen side bytes.now (on (other side) (D.disk disk.old).seen)) }
    ensures stays { MayLeave side 0 (D.disk disk.old) (D.disk disk.new) }
    ensures rest { IsTrue (D.disk disk.old).told → OnOk result (IsTrue (is_clean (D.disk disk.new))) }
    ensures told { (D.disk disk.new).told ≡ (D.disk disk.old).told }
    ensures rising { (D.disk disk.old).faults ≤ (D.disk disk.new).faults }
    ensures cause { IsErr result → Rose (D.disk disk.old).faults (D.disk disk.new).faults }
{
    disk.sync(other_of(side))?;
    shut_blank(disk, side)?;
    open_gate(disk, side, 0, bytes)
}

/// Writes a side anew, whatever stands on it, and makes sure of the other one.
pub(crate) fn rewrite_side<D: Disk>(disk: &mut D, side: Side, bytes: &[u8]) -> Result<(), Failed>
    ensures opened { IsTrue (D.disk disk.old).told → OnOk result (IsOpened side [] bytes.now (on (other side) (D.disk disk.old).seen) (D.disk disk.new).seen) }
    ensures any_moment { IsTrue (is_clean (D.disk disk.old)) → LeavesOnly (D.disk disk.old) (D.disk disk.new) (IsRewritten side bytes.now (D.disk disk.old).seen) }
    ensures stays { MayLeave side 0 (D.disk disk.old) (D.disk disk.new) }
    ensures rest { IsTrue (D.disk disk.old).told → OnOk result (IsTrue (is_clean (D.disk disk.new))) }
    ensures told { (D.disk disk.new).told ≡ (D.disk disk.old).told }
    ensures rising { (D.disk disk.old).faults ≤ (D.disk disk.new).faults }
    ensures cause { IsErr result → Rose (D.disk disk.old).faults (D.disk disk.new).faults }
{
    close_side(disk, side)?;
    write_side(disk, side, bytes)
}
