//! Payloads in memory that the next flush writes. Contracts see their list.
ghost use Rattle.std.specs.Prelude.{◌≡◌, ◌≢◌, ◌<◌, ◌≤◌, ◌+◌, ◌-◌, ◌^◌, ◌↔◌, [], ◌∷◌, ◌++◌, List, ℕ, length, IsTrue, OnOk, OnErr, IfOk, IfErr};
ghost use Rattle.std.specs.List.{AllByRecursion};
ghost use Rattle.commit_journal.specs.Spelling.{FitsText, records_size};
ghost use Rattle.commit_journal.specs.Kept.{batched};

use crate::SideFull;
use crate::gate::{CLOSED_GATE, OPEN_GATE};
use crate::limits::{PAYLOAD_LIMIT, RECORD_FRAME};
use slee_value::{NoMemory, write_bytes};
use std::alloc::Global;
use std::marker::Model;

/// Payloads that are to be written.
#[derive(Drop)]
pub(crate) struct Batch {
    // As they will stand on the disk, the gate before them included, which is still closed while there are none.
    bytes: Vec<u8>,
}

impl Model for Batch {
    ghost use Rattle.std.specs.Prelude.{List, ℕ};
    ghost use Rattle.commit_journal.specs.Batch.{payloads_in, IsBatch};

    ghost Value = { List (List ℕ) };

    ghost view = { λ b. payloads_in b.bytes.items };

    ghost invariant = { λ b. IsBatch b.bytes.items };
}

impl Batch {
    pub(crate) fn new(alloc: Global) -> Result<Self, NoMemory>
        ensures { IfOk result (λ batch. batch ≡ []) }
    {
        let mut bytes = Vec::new(alloc);
        bytes.push(CLOSED_GATE)?;
        Ok(Batch { bytes })
    }

    pub(crate) fn is_empty(&self) -> bool
        ensures { IsTrue result ↔ (self.now ≡ []) }
    {
        self.bytes.len() == 1
    }

    /// How many bytes its records have.
    pub(crate) fn size(&self) -> u64
        ensures size { result ≡ records_size self.now }
        ensures small { result < 2 ^ 63 }
    {
        self.bytes.len() as u64 - 1
    }

    /// What stands behind the gate before the batch, once this is open.
    pub(crate) fn behind(&self) -> &[u8]
        ensures behind { self.now ≢ [] → OPEN_GATE ∷ result.now ≡ batched self.now }
        ensures size { length result.now ≡ records_size self.now }
        ensures fits { AllByRecursion FitsText self.now }
    {
        &self.bytes[1..]
    }

    /// Tests whether a payload of so many bytes has room behind it, on a side whose last gate stands at `end`.
    pub(crate) fn check_room(
        &self,
        end: u64,
        payload_len: usize,
        limit: u64,
    ) -> Result<(), SideFull>
        requires room { end + records_size self.now < 2 ^ 64 - 2 ^ 20 }
        requires short { payload_len ≤ PAYLOAD_LIMIT }
        ensures full { IfErr result (λ full. (full.length ≡ end + 1 + records_size self.now) × (full.adding ≡ RECORD_FRAME + payload_len) × (limit < full.length + full.adding)) }
        ensures fits { OnOk result (end + 1 + records_size self.now + (RECORD_FRAME + payload_len) ≤ limit) }
    {
        let length = end + 1 + self.size();
        let adding = RECORD_FRAME + payload_len as u64;
        if length + adding > limit {
            return Err(SideFull { length, adding });
        }
        Ok(())
    }

    /// Adds a payload.
    pub(crate) fn push(&mut self, alloc: Global, payload: &[u8]) -> Result<(), NoMemory>
        requires { length payload.now < 2 ^ 32 }
        ensures ok { OnOk result (self.new ≡ self.old ++ payload.now ∷ []) }
        ensures err { OnErr result (self.new ≡ self.old) }
    {
        let gate = self.bytes.len() - 1;
        let mut piece = Vec::new(alloc);
        write_bytes(payload, &mut piece)?;
        piece.push(CLOSED_GATE)?;
        self.bytes.extend_from_slice(&piece)?;
        self.bytes[gate] = OPEN_GATE;
        Ok(())
    }

    pub(crate) fn clear(&mut self)
        ensures { self.new ≡ [] }
    {
        self.bytes.truncate(1);
        self.bytes[0] = CLOSED_GATE;
    }
}
