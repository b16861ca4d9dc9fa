//! The journal. Contracts see its stage, what it keeps, its batch and its disk.
ghost use Rattle.std.specs.Prelude.{◌≡◌, ◌≢◌, ◌≤◌, [], ◌∷◌, ◌++◌, length, IsTrue, OnOk, OnErr, IfOk, IfErr, IsErr, IsErrOf, IsOk};

use crate::batch::Batch;
use crate::blank::{rewrite_side, write_side};
use crate::gate::CLOSED_GATE;
use crate::heading::header_within;
use crate::limits::{PAYLOAD_LIMIT, SIDE_LIMIT};
use crate::reading::{next_of, other_of};
use crate::start::find;
use crate::writing::{cut_behind, write_batch};
use crate::{AppendFault, BeginFault, Format, JournalFault, Record, SideFull, Stage};
use slee_disk::{Disk, Failed, Side};
use slee_value::{Blob, NoMemory};
use std::alloc::Global;
use std::marker::Model;

/// Payloads on two sides of a disk, and a batch of more in memory.
#[derive(Drop)]
pub struct Journal<D: Disk> {
    disk: D,
    alloc: Global,
    stage: Stage,
    // The side that counts, or that will be begun.
    side: Side,
    format: Format,
    generation: u64,
    deployment: Blob,
    snapshot: Blob,
    records: Vec<Record>,
    // The place of the last gate.
    end: u64,
    batch: Batch,
    limit: u64,
}

impl<D: Disk> Model for Journal<D> {
    ghost use Rattle.std.specs.Prelude.{◌+◌};
    ghost use Rattle.commit_journal.specs.Spelling.{records_size};
    ghost use Rattle.commit_journal.specs.Journal.{View, kept_by, IsSound};

    ghost Value = { View D };

    ghost view = { λ a. record {
      disk = a.disk;
      stage = a.stage;
      kept = kept_by a.side a.format a.generation a.deployment a.snapshot (D.disk a.disk);
      batch = a.batch;
      length = a.end + 1 + records_size a.batch;
      records = a.records.items;
      limit = a.limit;
    } };

    ghost invariant = { λ a. IsSound a.stage (kept_by a.side a.format a.generation a.deployment a.snapshot (D.disk a.disk)) a.end a.batch a.limit (D.disk a.disk) };
}

impl<D: Disk> Journal<D> {
    ghost use Rattle.slee_disk.specs.Sides.{on};
    ghost use Rattle.slee_disk.specs.Disk.{LeavesOnly, Looks, is_clean};
    ghost use Rattle.commit_journal.specs.declared.stage.Stage.TheVariants.{Ready, Stopped};
    ghost use Rattle.commit_journal.specs.Spelling.{header, records_size, size, format_number};
    ghost use Rattle.commit_journal.specs.Reading.{recovered};
    ghost use Rattle.commit_journal.specs.Kept.{StandsOrMore, StandsOrBegun, side_renewed, generation_renewed, renewed, StandsOrRenewed};
    ghost use Rattle.commit_journal.specs.Beginning.{MayLeave, size_left};
    ghost use Rattle.commit_journal.specs.Running.{Runs};
    ghost use Rattle.commit_journal.specs.Views.{IsCause};
    ghost use Rattle.commit_journal.specs.Journal.{payloads_on, IsOpen, IsOpenOver, StaysClean, IsCounted, HasRoomFor, IsFullFor, IsRefused, with_payload, IsSameSide, size_begun, IsLeft, IsBegun, IsRefusedBegin, IsFlushed, IsSettled, GoesOn, IsRenewed, LeavesInRenewal, IsRefusedRenewal};

    /// Reads the two sides of a disk, of either format, and writes nothing. `limit` is the most bytes that a side may come
    /// to have; a longer side is read all the same, but one longer than any side may be isn't: there is no memory for it.
    pub fn open(
        alloc: Global,
        disk: D,
        deployment: &[u8],
        limit: u64,
    ) -> Result<Journal<D>, (JournalFault, D)>
        requires { limit ≤ SIDE_LIMIT }
        ensures opened { IfOk result (λ j. IsOpen deployment.now limit j) }
        ensures found { IsTrue (D.disk disk).told → IfOk result (λ j. IsOpenOver deployment.now (D.disk disk).seen j) }
        ensures cause { IsTrue (D.disk disk).told → IfErr result (λ e. IsCause e.0 (recovered deployment.now (D.disk disk).seen)) }

        // It changes nothing, and the disk has failed in it where it says so.
        ensures looks { IfOk result (λ j. Looks (D.disk disk) (D.disk j.disk) ⊥) }
        ensures looks_err { IfErr result (λ e. Looks (D.disk disk) (D.disk e.1) (e.0 ≡ JournalFault.DiskFault)) }
        ensures any_moment { IsTrue (is_clean (D.disk disk)) → IfOk result (λ j. StaysClean (D.disk disk) (D.disk j.disk)) }
        ensures any_moment_err { IsTrue (is_clean (D.disk disk)) → IfErr result (λ e. StaysClean (D.disk disk) (D.disk e.1)) }
    {
        let mut disk = disk;
        let Ok(batch) = Batch::new(alloc) else {
            return Err((JournalFault::NoMemory, disk));
        };
        match find(alloc, &mut disk, deployment) {
            Err(fault) => Err((fault, disk)),
            Ok(found) => Ok(Journal {
                disk,
                alloc,
                stage: found.stage,
                side: found.side,
                format: found.format,
                generation: found.generation,
                deployment: found.deployment,
                snapshot: found.snapshot,
                records: found.records,
                end: found.end,
                batch,
                limit,
            }),
        }
    }

    /// The records that were found at opening, and none once it is renewed.
    pub fn records(&self) -> &[Record]
        ensures { result.now ≡ self.now.records }
    {
        &self.records
    }

    /// What the records follow on: a snapshot of the state before them, or nothing for the initial state.
    pub fn snapshot(&self) -> &[u8]
        ensures { result.now ≡ self.now.kept.head.snapshot }
    {
        self.snapshot.as_slice()
    }

    /// The number of the format of the side that counts; 2 where none does. A journal of format 1 is only renewed.
    pub fn format(&self) -> u8
        ensures format { result ≡ format_number self.now.kept.head.format }
        ensures ready { self.now.stage ≡ Ready → result ≡ 2 }
    {
        self.format.number()
    }

    /// The side that counts, or that will be begun.
    pub fn side(&self) -> Side
        ensures side { result ≡ self.now.kept.side }
        ensures payloads { payloads_on (on self.now.kept.side (D.disk self.now.disk).seen) ≡ self.now.kept.payloads }
        ensures whole { self.now.stage ≡ Ready → IsTrue (D.disk self.now.disk).told
            → length (on self.now.kept.side (D.disk self.now.disk).seen) ≡ size self.now.kept.head self.now.kept.payloads }
    {
        self.side
    }

    /// Makes it ready for payloads: writes the header of a blank journal, or cuts what stands behind the last gate. It makes
    /// sure of both sides, also of what an earlier run has left unsynced.
    pub fn begin(&mut self) -> Result<(), BeginFault>
        requires running { self.old.stage ≢ Stopped }
        requires current { format_number self.old.kept.head.format ≡ 2 }
        ensures begun { IsTrue (D.disk self.old.disk).told → OnOk result (IsBegun D.disk self.old self.new) }
        ensures ready { OnOk result ((self.new.stage ≡ Ready) × (size_begun self.old.stage self.old.kept.head ≤ self.old.limit)) }
        ensures still { IsSameSide self.old self.new }
        ensures batch { self.new.batch ≡ self.old.batch }

        // A crash at any moment of the call leaves what stood, or the side that is begun.
        ensures any_moment { IsTrue (is_clean (D.disk self.old.disk)) → LeavesOnly (D.disk self.old.disk) (D.disk self.new.disk)
            (StandsOrBegun self.old.stage self.old.kept) }
        ensures stays { IsTrue (D.disk self.old.disk).told → MayLeave self.old.kept.side (size_left self.old.stage self.old.kept) (D.disk self.old.disk) (D.disk self.new.disk) }
        ensures refused { IfErr result (λ fault. IsRefusedBegin self.old self.new fault) }
        ensures runs { Runs (D.disk self.old.disk) (D.disk self.new.disk) (IsErrOf result BeginFault.DiskFault) }
    {
        let Stage::Blank = self.stage else {
            return match cut_behind(&mut self.disk, self.side, self.end) {
                Ok(()) => {
                    self.stage = Stage::Ready;
                    Ok(())
                }
                Err(Failed) => {
                    self.stage = Stage::Stopped;
                    Err(BeginFault::DiskFault)
                }
            };
        };
        let deployment = self.deployment.as_slice();
        let bytes = header_within(self.alloc, self.limit, self.generation, deployment, &[])?;
        match write_side(&mut self.disk, self.side, &bytes) {
            Ok(()) => {
                self.end = bytes.len() as u64;
                self.stage = Stage::Ready;
                Ok(())
            }
            Err(Failed) => {
                self.stage = Stage::Stopped;
                Err(BeginFault::DiskFault)
            }
        }
    }

    /// Tests whether a payload of so many bytes has room behind the batch. It takes no memory, and calls no disk.
    pub fn check_room(&self, payload_len: usize) -> Result<(), SideFull>
        requires ready { self.now.stage ≡ Ready }
        requires short { payload_len ≤ PAYLOAD_LIMIT }
        ensures full { IfErr result (λ full. IsFullFor self.now payload_len full.length full.adding) }
        ensures fits { OnOk result (HasRoomFor self.now payload_len) }
        ensures counted { IsCounted D.disk self.now }
    {
        self.batch.check_room(self.end, payload_len, self.limit)
    }

    /// Adds a payload that has room to the batch, without a call of the disk.
    pub fn push(&mut self, payload: &[u8]) -> Result<(), NoMemory>
        requires ready { self.old.stage ≡ Ready }
        requires short { length payload.now ≤ PAYLOAD_LIMIT }
        requires room { HasRoomFor self.old (length payload.now) }
        ensures ok { OnOk result (self.new ≡ with_payload self.old payload.now) }
        ensures err { OnErr result (self.new ≡ self.old) }
    {
        self.batch.push(self.alloc, payload)?;
        Ok(())
    }

    /// Adds a payload to the batch where it has room, without a call of the disk.
    pub fn append(&mut self, payload: &[u8]) -> Result<(), AppendFault>
        requires ready { self.old.stage ≡ Ready }
        requires short { length payload.now ≤ PAYLOAD_LIMIT }
        ensures ok { OnOk result (self.new ≡ with_payload self.old payload.now) }
        ensures err { OnErr result (self.new ≡ self.old) }
        ensures refused { IfErr result (λ fault. IsRefused self.old (length payload.now) fault) }
        ensures fits { OnOk result (HasRoomFor self.old (length payload.now)) }
        ensures counted { IsCounted D.disk self.old }
    {
        match self.check_room(payload.len()) {
            Ok(()) => {}
            Err(SideFull { length, adding }) => return Err(AppendFault::Full { length, adding }),
        }
        self.push(payload)?;
        Ok(())
    }

    /// How many bytes the batch has.
    pub fn batch(&self) -> u64
        ensures { result ≡ records_size self.now.batch }
    {
        self.batch.size()
    }

    /// Writes the batch. At `Ok` it is acknowledged. It makes four calls of the disk, however many payloads there are, and
    /// none where there are none.
    pub fn flush(&mut self) -> Result<(), Failed>
        requires { self.old.stage ≢ Stopped }
        ensures flushed { IsTrue (D.disk self.old.disk).told → OnOk result (IsFlushed D.disk self.old self.new) }
        ensures acknowledged { IsTrue (is_clean (D.disk self.old.disk)) → OnOk result (IsSettled D.disk self.new) }
        ensures ok { OnOk result ((self.new.stage ≡ self.old.stage) × (self.new.batch ≡ [])) }
        ensures err { OnErr result ((self.new.stage ≡ Stopped) × (self.new.batch ≡ self.old.batch)) }
        ensures still { IsSameSide self.old self.new }

        // A crash at any moment of the call leaves what was acknowledged, with the batch or without.
        ensures any_moment { IsTrue (is_clean (D.disk self.old.disk)) → LeavesOnly (D.disk self.old.disk) (D.disk self.new.disk)
            (StandsOrMore self.old.stage self.old.kept self.old.batch) }
        ensures runs { Runs (D.disk self.old.disk) (D.disk self.new.disk) (IsErr result) }

        // An empty batch asks nothing of the disk.
        ensures idle { self.old.batch ≡ [] → (self.new ≡ self.old) × IsOk result }
    {
        if self.batch.is_empty() {
            return Ok(());
        }
        match write_batch(&mut self.disk, self.side, self.end, &self.batch) {
            Ok(()) => {
                self.end += self.batch.size();
                self.batch.clear();
                Ok(())
            }
            Err(failed) => {
                self.stage = Stage::Stopped;
                Err(failed)
            }
        }
    }

    /// The side that is written next, and its generation.
    fn next_side(&self) -> (Side, u64)
        ensures side { result.0 ≡ side_renewed self.now.stage self.now.kept.side }
        ensures generation { result.1 ≡ generation_renewed self.now.stage self.now.kept.head.generation }
    {
        match self.stage {
            Stage::Blank => (self.side, self.generation),
            _ => (other_of(self.side), next_of(self.generation)),
        }
    }

    /// Writes the side that is next, of which these are the bytes behind its first gate, and goes on with it.
    fn switch(&mut self, snapshot: Blob, bytes: &[u8]) -> Result<u64, BeginFault>
        requires running { self.old.stage ≢ Stopped }
        requires empty { self.old.batch ≡ [] }
        requires bytes { bytes.now ≡ header (renewed self.old.stage self.old.kept snapshot).head ++ CLOSED_GATE ∷ [] }
        requires fits { size (renewed self.old.stage self.old.kept snapshot).head [] ≤ self.old.limit }
        ensures renewed { IsTrue (D.disk self.old.disk).told → OnOk result (IsRenewed D.disk self.old snapshot self.new) }
        ensures goes_on { IfOk result (λ generation. GoesOn self.old snapshot self.new generation) }
        ensures others { (self.new.batch ≡ self.old.batch) × (self.new.limit ≡ self.old.limit) }
        ensures any_moment { IsTrue (is_clean (D.disk self.old.disk)) → LeavesOnly (D.disk self.old.disk) (D.disk self.new.disk)
            (StandsOrRenewed self.old.stage self.old.kept snapshot) }
        ensures stays { MayLeave (side_renewed self.old.stage self.old.kept.side) 0 (D.disk self.old.disk) (D.disk self.new.disk) }
        ensures failed { IfErr result (λ fault. (fault ≡ BeginFault.DiskFault) × IsLeft self.old self.new fault) }
        ensures runs { Runs (D.disk self.old.disk) (D.disk self.new.disk) (IsErr result) }
    {
        let (side, generation) = self.next_side();
        match rewrite_side(&mut self.disk, side, bytes) {
            Ok(()) => {
                self.stage = Stage::Ready;
                self.side = side;
                self.format = Format::Two;
                self.generation = generation;
                self.snapshot = snapshot;
                self.records.clear(); // They stand no more on the side that counts.
                self.end = bytes.len() as u64;
                Ok(generation)
            }
            Err(Failed) => {
                self.stage = Stage::Stopped;
                Err(BeginFault::DiskFault)
            }
        }
    }

    /// Flushes, goes on with the other side, on which a snapshot stands for the payloads, and answers its generation. The
    /// new side is of format 2.
    pub fn renew(&mut self, snapshot: &[u8]) -> Result<u64, BeginFault>
        requires { self.old.stage ≢ Stopped }
        ensures renewed { IsTrue (D.disk self.old.disk).told → OnOk result (IsRenewed D.disk self.old snapshot.now self.new) }
        ensures goes_on { IfOk result (λ generation. GoesOn self.old snapshot.now self.new generation) }
        ensures others { OnOk result (self.new.records ≡ []) × (self.new.limit ≡ self.old.limit) }
        ensures any_moment { IsTrue (is_clean (D.disk self.old.disk)) → LeavesInRenewal D.disk self.old snapshot.now self.new }
        ensures stays { self.old.batch ≡ [] → MayLeave (side_renewed self.old.stage self.old.kept.side) 0 (D.disk self.old.disk) (D.disk self.new.disk) }
        ensures fits { OnOk result (size (renewed self.old.stage self.old.kept snapshot.now).head [] ≤ self.old.limit) }
        ensures refused { IfErr result (λ fault. IsRefusedRenewal self.old snapshot.now self.new fault) }
        ensures runs { Runs (D.disk self.old.disk) (D.disk self.new.disk) (IsErrOf result BeginFault.DiskFault) }
    {
        let (_, generation) = self.next_side();
        let deployment = self.deployment.as_slice();
        let bytes = header_within(self.alloc, self.limit, generation, deployment, snapshot)?;
        let kept = Blob::from_slice(self.alloc, snapshot)?;
        self.flush()?;
        self.switch(kept, &bytes)
    }

    /// The disk.
    pub fn disk(&self) -> &D
        ensures { result.now ≡ self.now.disk }
    {
        &self.disk
    }

    /// The disk, whatever has come of the journal.
    pub fn into_disk(self) -> D
        ensures { result ≡ self.disk }
    {
        self.disk
    }
}
