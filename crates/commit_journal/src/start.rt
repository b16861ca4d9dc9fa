//! The sides of a disk read at the start.
ghost use Rattle.std.specs.Prelude.{◌≡◌, ◌<◌, ◌≤◌, ◌+◌, ◌^◌, [], length, map, IsTrue, IfOk, IfErr, IsErrOf, List, ℕ};
ghost use Rattle.slee_disk.specs.Sides.{on};
ghost use Rattle.slee_disk.specs.Disk.{Looks};
ghost use Rattle.commit_journal.specs.Spelling.{FitsText};
ghost use Rattle.commit_journal.specs.Reading.{recovered, first_gate};
ghost use Rattle.commit_journal.specs.Kept.{StandsFound, AreBlank};
ghost use Rattle.commit_journal.specs.Views.{IsCause, IsDevice, IsRecovered, kept_found, payload_of, located, IsFresh};

use crate::fault::JournalFault;
use crate::limits::{DEPLOYMENT_MARGIN, HEADER_FRAME, SIDE_LIMIT};
use crate::record::Found;
use crate::recovery::recover;
use crate::{Format, Stage};
use slee_disk::{Disk, Side};
use std::alloc::Global;

/// All the bytes of a side. One that is longer than a side may be isn't read: there is no memory for it.
fn read_side<D: Disk>(alloc: Global, disk: &mut D, side: Side) -> Result<Vec<u8>, JournalFault>
    ensures within { IfOk result (λ v. length v.items ≤ SIDE_LIMIT) }
    ensures bytes { IsTrue (D.disk disk.old).told → IfOk result (λ v. v.items ≡ on side (D.disk disk.old).seen) }
    ensures looks { Looks (D.disk disk.old) (D.disk disk.new) (IsErrOf result JournalFault.DiskFault) }
    ensures cause { IfErr result (λ e. IsDevice e) }
{
    let length = disk.len(side)?;
    if length > SIDE_LIMIT {
        return Err(JournalFault::NoMemory);
    }
    let mut bytes = Vec::new(alloc);
    let Ok(()) = bytes.resize(length as usize, 0) else {
        return Err(JournalFault::NoMemory);
    };
    let count = disk.read(side, 0, &mut bytes)?;
    bytes.truncate(count);
    Ok(bytes)
}

/// Reads both sides, and says what they stand for.
pub(crate) fn find<D: Disk>(
    alloc: Global,
    disk: &mut D,
    deployment: &[u8],
) -> Result<Found, JournalFault>
    ensures found { IsTrue (D.disk disk.old).told → IfOk result (λ f. IsRecovered deployment.now f (recovered deployment.now (D.disk disk.old).seen)) }
    ensures stands { IsTrue (D.disk disk.old).told → IfOk result (λ f. f.stage ≡ Stage.Found → StandsFound (kept_found f) f.end (D.disk disk.old).seen) }
    ensures records { IfOk result (λ f. f.records.items ≡ located (first_gate (kept_found f).head) (map payload_of f.records.items)) }
    ensures named { IfOk result (λ f. f.deployment ≡ deployment.now) }
    ensures fresh { IfOk result (λ f. IsFresh f.stage) }
    ensures short { IfOk result (λ f. f.stage ≡ Stage.Found → FitsText f.deployment) }
    ensures sized { IfOk result (λ f. length f.deployment + DEPLOYMENT_MARGIN < 2 ^ 63) }
    ensures blank { IsTrue (D.disk disk.old).told → IfOk result (λ f. f.stage ≡ Stage.Blank → AreBlank (D.disk disk.old).seen) }
    ensures first { IfOk result (λ f. f.stage ≡ Stage.Blank → (f.snapshot ≡ []) × (f.format ≡ Format.Two) × (f.records.items ≡ [])) }
    ensures cause { IsTrue (D.disk disk.old).told → IfErr result (λ e. IsCause e (recovered deployment.now (D.disk disk.old).seen)) }
    ensures looks { Looks (D.disk disk.old) (D.disk disk.new) (IsErrOf result JournalFault.DiskFault) }
    ensures small { IfOk result (λ f. f.end < 2 ^ 63 + HEADER_FRAME) }
{
    let a = read_side(alloc, disk, Side::A)?;
    let b = read_side(alloc, disk, Side::B)?;
    recover(alloc, &a, &b, deployment)
}
