//! What the two sides stand for together.
ghost use Rattle.std.specs.Prelude.{◌≡◌, ◌<◌, ◌+◌, ◌^◌, [], length, map, Some, Ok, IfOk, IfErr, IsErrOf, List, ℕ};
ghost use Rattle.commit_journal.specs.Spelling.{FitsText, records_size};
ghost use Rattle.commit_journal.specs.Reading.{payloads_of, with_records, first_gate, recovered};
ghost use Rattle.commit_journal.specs.Kept.{StandsFound, AreBlank};
ghost use Rattle.commit_journal.specs.Views.{head_view, IsCause, IsRecovered, kept_found, payload_of, located, IsFresh};

use crate::fault::{JournalBad, JournalFault};
use crate::limits::{DEPLOYMENT_MARGIN, HEADER_FRAME};
use crate::reading::{Heading, choose, differ, records_of};
use crate::record::{Found, RecordsFault};
use crate::{Format, Stage};
use slee_disk::Side;
use slee_value::Blob;
use std::alloc::Global;

// No memory holds the side that would begin with a longer deployment.
const LONGEST_DEPLOYMENT: usize = isize::MAX as usize - DEPLOYMENT_MARGIN;

/// What a side keeps, to a container with this deployment.
fn keep(
    alloc: Global,
    side: Side,
    heading: Heading<'_>,
    gates: &[u8],
    deployment: &[u8],
) -> Result<Found, JournalFault>
    requires { length heading.deployment.now + length heading.snapshot.now + length gates.now < 2 ^ 63 }
    ensures kept { IfOk result (λ f. (f.stage ≡ Stage.Found) × (with_records deployment.now side (head_view heading.entry) (payloads_of gates.now) ≡ Ok (Some (kept_found f)))
        × (f.end ≡ first_gate (head_view heading.entry) + records_size (map payload_of f.records.items))) }
    ensures records { IfOk result (λ f. f.records.items ≡ located (first_gate (kept_found f).head) (map payload_of f.records.items)) }
    ensures named { IfOk result (λ f. (f.deployment ≡ deployment.now) × (f.deployment ≡ heading.entry.deployment.now)) }
    ensures cause { IfErr result (λ e. IsCause e (with_records deployment.now side (head_view heading.entry) (payloads_of gates.now))) }
    ensures no_fault { IsErrOf result JournalFault.DiskFault → ⊥ }
    ensures small { IfOk result (λ f. f.end < 2 ^ 63 + HEADER_FRAME) }
{
    let first = HEADER_FRAME + heading.deployment.len() as u64 + heading.snapshot.len() as u64;
    let (records, end) = match records_of(alloc, gates, first) {
        Ok(found) => found,
        Err(RecordsFault::Short(at)) => {
            return Err(JournalFault::BadJournal {
                side,
                at,
                kind: JournalBad::Length,
            });
        }
        Err(RecordsFault::NoMemory) => return Err(JournalFault::NoMemory),
    };
    if heading.deployment != deployment {
        return Err(JournalFault::OtherDeployment {
            kept_len: heading.deployment.len() as u64,
            first_difference: differ(heading.deployment, deployment) as u64,
        });
    }
    let kept = Blob::from_slice(alloc, heading.deployment)?;
    let snapshot = Blob::from_slice(alloc, heading.snapshot)?;
    Ok(Found {
        stage: Stage::Found,
        side,
        format: heading.format,
        generation: heading.generation,
        deployment: kept,
        snapshot,
        records,
        end,
    })
}

/// What two sides stand for, to a container with this deployment.
pub(crate) fn recover(
    alloc: Global,
    a: &[u8],
    b: &[u8],
    deployment: &[u8],
) -> Result<Found, JournalFault>
    requires sizes { (length a.now < 2 ^ 63) × (length b.now < 2 ^ 63) }
    ensures found { IfOk result (λ f. IsRecovered deployment.now f (recovered deployment.now (record { a = a.now; b = b.now }))) }
    ensures stands { IfOk result (λ f. f.stage ≡ Stage.Found → StandsFound (kept_found f) f.end (record { a = a.now; b = b.now })) }
    ensures records { IfOk result (λ f. f.records.items ≡ located (first_gate (kept_found f).head) (map payload_of f.records.items)) }
    ensures named { IfOk result (λ f. f.deployment ≡ deployment.now) }
    ensures fresh { IfOk result (λ f. IsFresh f.stage) }
    ensures short { IfOk result (λ f. f.stage ≡ Stage.Found → FitsText f.deployment) }
    ensures sized { IfOk result (λ f. length f.deployment + DEPLOYMENT_MARGIN < 2 ^ 63) }
    ensures blank { IfOk result (λ f. f.stage ≡ Stage.Blank → AreBlank (record { a = a.now; b = b.now })) }
    ensures first { IfOk result (λ f. f.stage ≡ Stage.Blank → (f.snapshot ≡ []) × (f.format ≡ Format.Two) × (f.records.items ≡ [])) }
    ensures cause { IfErr result (λ e. IsCause e (recovered deployment.now (record { a = a.now; b = b.now }))) }
    ensures no_fault { IsErrOf result JournalFault.DiskFault → ⊥ }
    ensures small { IfOk result (λ f. f.end < 2 ^ 63 + HEADER_FRAME) }
{
    match choose(a, b) {
        Err((side, kind)) => Err(JournalFault::BadJournal { side, at: 0, kind }),
        Ok(Some((side, heading, gates))) => keep(alloc, side, heading, gates, deployment),
        Ok(None) => {
            if deployment.len() > LONGEST_DEPLOYMENT {
                return Err(JournalFault::NoMemory);
            }
            let kept = Blob::from_slice(alloc, deployment)?;
            Ok(Found {
                stage: Stage::Blank,
                side: Side::A,
                format: Format::Two,
                generation: 1,
                deployment: kept,
                snapshot: Blob::new(alloc),
                records: Vec::new(alloc),
                end: 0,
            })
        }
    }
}
