//! The header of a side that is written anew.
ghost use Rattle.std.specs.Prelude.{◌≡◌, ◌<◌, ◌≤◌, ◌+◌, ◌^◌, [], ◌∷◌, ◌++◌, length, IfOk, IfErr, OnOk, IsErrOf};
ghost use Rattle.commit_journal.specs.Spelling.{FitsText, header, size};
ghost use Rattle.commit_journal.specs.Journal.{IsTooLarge};

use crate::format::MAGIC_TWO;
use crate::gate::CLOSED_GATE;
use crate::limits::{DEPLOYMENT_MARGIN, SIDE_FRAME, SIDE_LIMIT};
use crate::{BeginFault, Format};
use slee_value::{NoMemory, write_bytes, write_u64};
use std::alloc::Global;

/// All that stands behind the first gate of a side without records, in the second format.
fn header_bytes(
    alloc: Global,
    generation: u64,
    deployment: &[u8],
    snapshot: &[u8],
) -> Result<Vec<u8>, NoMemory>
    requires deployment { FitsText deployment.now }
    requires snapshot { FitsText snapshot.now }
    ensures { IfOk result (λ v. v.items ≡ header (record { format = Format.Two; generation = generation; deployment = deployment.now; snapshot = snapshot.now }) ++ CLOSED_GATE ∷ []) }
{
    let mut bytes = Vec::from_slice(alloc, &MAGIC_TWO)?;
    write_u64(generation, &mut bytes)?;
    write_bytes(deployment, &mut bytes)?;
    write_bytes(snapshot, &mut bytes)?;
    bytes.push(CLOSED_GATE)?;
    Ok(bytes)
}

/// The same, where that side has no more than `limit` bytes, its first gate included. The size is tested before memory is
/// taken.
pub(crate) fn header_within(
    alloc: Global,
    limit: u64,
    generation: u64,
    deployment: &[u8],
    snapshot: &[u8],
) -> Result<Vec<u8>, BeginFault>
    requires limit { limit ≤ SIDE_LIMIT }
    requires sized { length deployment.now + DEPLOYMENT_MARGIN < 2 ^ 63 }
    ensures bytes { IfOk result (λ v. v.items ≡ header (record { format = Format.Two; generation = generation; deployment = deployment.now; snapshot = snapshot.now }) ++ CLOSED_GATE ∷ []) }
    ensures fits { OnOk result (size (record { format = Format.Two; generation = generation; deployment = deployment.now; snapshot = snapshot.now }) [] ≤ limit) }
    ensures refused { IfErr result (λ fault. IsTooLarge (size (record { format = Format.Two; generation = generation; deployment = deployment.now; snapshot = snapshot.now }) []) limit fault) }
    ensures no_device { IsErrOf result BeginFault.DiskFault → ⊥ }
{
    let size = SIDE_FRAME + deployment.len() as u64 + snapshot.len() as u64;
    if size > limit {
        return Err(BeginFault::Full {
            length: 0,
            adding: size,
        });
    }
    let bytes = header_bytes(alloc, generation, deployment, snapshot)?;
    Ok(bytes)
}
