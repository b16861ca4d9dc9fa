//! A disk in memory, which keeps its calls.
ghost use Rattle.std.specs.Prelude.{◌≡◌, ℕ, ◌≤◌, ◌+◌, ◌++◌, [], length, take, drop, IsTrue, IfOk, OnOk, OnErr, IsErr, false, true};
ghost use Rattle.slee_disk.specs.Sides.{Sides, on, given, AtSide, Holds, Torn, Cut};
ghost use Rattle.slee_disk.specs.Disk.{Looks, Changes, KeepsSettled, Settles, IsAtRest};
ghost use Rattle.slee_disk.specs.Calls.{image_of};
ghost use Rattle.slee_disk.specs.MemoryDisk.{state_of, seen_of, Recorded, KeepsListed, CountsFault};
ghost use Rattle.slee_disk.specs.declared.call.Act.TheVariants as acts;

use crate::call::{Act, Call};
use crate::fail_list::FailList;
use crate::pair::{Pair, give};
use crate::stop::{Stop, Tear, apply};
use crate::{Disk, Failed, Side};
use slee_value::{Blob, NoMemory};
use std::alloc::Global;
use std::marker::Model;

/// Two sides in memory. A list says which calls fail; want of memory is a fault of its own too. It takes the room for the
/// calls that the list may fail at once, so that each of these is kept, but for a write that finds no memory for its bytes.
#[derive(Debug, Drop)]
pub struct MemoryDisk {
    alloc: Global,
    first_a: Blob,
    first_b: Blob,
    held: Pair,
    fail: FailList,
    calls: Vec<Call>,
    faults: u64,
}

impl Model for MemoryDisk {
    ghost use Rattle.std.specs.Prelude.{vec_len, vec_capacity};
    ghost use Rattle.slee_disk.specs.MemoryDisk.{MemoryState, IsMemory};

    ghost Value = { MemoryState };

    ghost view = { λ d. record { first = record { a = d.first_a; b = d.first_b }; calls = d.calls.items; fails = d.fail; faults = d.faults } };

    ghost invariant = { λ d. IsMemory (record { a = d.first_a; b = d.first_b }) d.calls.items d.held d.fail (vec_len d.calls) (vec_capacity d.calls) };
}

impl MemoryDisk {
    /// A disk with these bytes on its two sides, on which nothing is pending. Its k-th call fails where the k-th of
    /// `fail` is 1.
    pub fn new(alloc: Global, a: Blob, b: Blob, fail: Blob) -> Result<Self, NoMemory>
        ensures disk { IfOk result (λ disk. disk ≡ record { first = record { a = a; b = b }; calls = []; fails = fail; faults = 0 }) }
        ensures rest { IfOk result (λ disk. IsAtRest (record { a = a; b = b }) (state_of disk)) }
    {
        let held = Pair::from_slices(alloc, a.as_slice(), b.as_slice())?;
        let calls = Vec::with_capacity(alloc, fail.len())?;
        Ok(MemoryDisk {
            alloc,
            first_a: a,
            first_b: b,
            held,
            fail: FailList::new(fail),
            calls,
            faults: 0,
        })
    }

    /// The bytes of a side, as a read gives them.
    pub fn side(&self, side: Side) -> &[u8]
        ensures { result.now ≡ on side (seen_of self.now) }
    {
        self.held.side(side)
    }

    /// How many calls it has kept, failed ones included.
    pub fn calls(&self) -> u64
        ensures { result ≡ length self.now.calls }
    {
        self.calls.len() as u64
    }

    /// The disk that a stop in some call may leave; calls count from 1. Of each write since a side's last sync the
    /// first `part` bytes are as written, and the others are `fill`. Failed writes and cuts count as made, cuts are done
    /// as asked, and a sync counts only where it succeeded.
    pub fn image(&self, call: u64, part: u64, fill: u8) -> Result<MemoryDisk, NoMemory>
        requires { call ≤ length self.now.calls }
        ensures bytes { IfOk result (λ disk. disk ≡ record { first = image_of part fill (take call self.now.calls) self.now.first; calls = []; fails = []; faults = 0 }) }
        ensures rest { IfOk result (λ disk. IsAtRest (image_of part fill (take call self.now.calls) self.now.first) (state_of disk)) }
        ensures possible { IfOk result (λ disk. (t : ℕ) → t ≤ call → (state_of self.now).since t (seen_of disk)) }
    {
        let first = Stop::new(self.alloc, self.first_a.as_slice(), self.first_b.as_slice())?;
        let stop = first.after(
            self.alloc,
            &self.calls[..call as usize],
            Tear { part, fill },
        )?;
        let a = Blob::from_slice(self.alloc, stop.side(Side::A))?;
        let b = Blob::from_slice(self.alloc, stop.side(Side::B))?;
        let disk = MemoryDisk::new(self.alloc, a, b, Blob::new(self.alloc))?;
        Ok(disk)
    }

    // Counts a fault.
    fn fault(&mut self) -> Failed
        ensures { CountsFault self.old self.new }
    {
        self.faults = self.faults.saturating_add(1);
        Failed
    }

    // Does a call and keeps it, if memory allows, and fails it where the list says so.
    fn record(&mut self, side: Side, act: Act) -> Result<(), Failed>
        ensures recorded { Recorded self.old self.new side act result }
        ensures listed { KeepsListed self.old self.new side act }
    {
        let failed = self.fail.next();
        let Ok(()) = self.calls.reserve(1) else {
            return Err(self.fault());
        };
        let Ok(()) = apply(&mut self.held, side, &act, failed) else {
            return Err(self.fault());
        };
        self.calls.push(Call { side, act, failed }).unwrap();
        if failed {
            return Err(self.fault());
        }
        Ok(())
    }
}

impl Disk for MemoryDisk {
    ghost disk = { λ m. state_of m };

    #[tactic(auto, using(crate::proofs::Recording::len_looks, crate::proofs::Recording::len_settled))]
    fn len(&mut self, side: Side) -> Result<u64, Failed>
        ensures length { IfOk result (λ n. n ≡ length (on side (seen_of self.old))) }
        ensures looks { Looks (state_of self.old) (state_of self.new) (IsErr result) }
        ensures settled { KeepsSettled (state_of self.old) (state_of self.new) }
        ensures recorded { Recorded self.old self.new side acts.Look result }
        ensures listed { KeepsListed self.old self.new side acts.Look }
    {
        self.record(side, Act::Look)?;
        Ok(self.held.side(side).len() as u64)
    }

    #[tactic(auto, using(crate::proofs::Recording::len_looks, crate::proofs::Recording::len_settled))]
    fn read(&mut self, side: Side, at: u64, into: &mut [u8]) -> Result<usize, Failed>
        ensures count { IfOk result (λ n. n ≤ length into.old) }
        ensures bytes { IfOk result (λ n.
            let bytes = given at (length into.old) (on side (seen_of self.old)) in
            (n ≡ length bytes) × (into.new ≡ bytes ++ drop n into.old)) }
        ensures looks { Looks (state_of self.old) (state_of self.new) (IsErr result) }
        ensures settled { KeepsSettled (state_of self.old) (state_of self.new) }
        ensures recorded { Recorded self.old self.new side acts.Look result }
        ensures listed { KeepsListed self.old self.new side acts.Look }
        ensures failed { OnErr result (into.new ≡ into.old) }
    {
        self.record(side, Act::Look)?;
        Ok(give(self.held.side(side), at, into))
    }

    #[tactic(auto, using(crate::proofs::Recording::write_written, crate::proofs::Recording::write_changes, crate::proofs::Recording::failed_seen))]
    fn write_at(&mut self, side: Side, at: u64, bytes: &[u8]) -> Result<(), Failed>
        ensures written { OnOk result (AtSide side (Holds at bytes.now) (seen_of self.old) (seen_of self.new)) }
        ensures changes { Changes side (Torn at (length bytes.now)) (state_of self.old) (state_of self.new) (IsErr result) }
        ensures recorded { Recorded self.old self.new side (acts.Write at bytes.now) result }
        ensures unchanged { OnErr result (seen_of self.new ≡ seen_of self.old) }
    {
        let Ok(copy) = Blob::from_slice(self.alloc, bytes) else {
            self.fail.next();
            return Err(self.fault());
        };
        self.record(side, Act::Write(at, copy))
    }

    #[tactic(auto, using(crate::proofs::Recording::cut_cut, crate::proofs::Recording::cut_changes, crate::proofs::Recording::failed_seen))]
    fn cut(&mut self, side: Side, length: u64) -> Result<(), Failed>
        ensures cut { OnOk result (AtSide side (λ old new. new ≡ take length old) (seen_of self.old) (seen_of self.new)) }
        ensures changes { Changes side (Cut length) (state_of self.old) (state_of self.new) (IsErr result) }
        ensures recorded { Recorded self.old self.new side (acts.Cut length) result }
        ensures listed { KeepsListed self.old self.new side (acts.Cut length) }
        ensures unchanged { OnErr result (seen_of self.new ≡ seen_of self.old) }
    {
        self.record(side, Act::Cut(length))
    }

    #[tactic(auto, using(crate::proofs::Recording::sync_durable, crate::proofs::Recording::sync_looks, crate::proofs::Recording::sync_settles))]
    fn sync(&mut self, side: Side) -> Result<(), Failed>
        ensures durable { OnOk result ((image : Sides) → (state_of self.new).images image → on side image ≡ on side (seen_of self.old)) }
        ensures looks { Looks (state_of self.old) (state_of self.new) (IsErr result) }
        ensures settled { Settles side (state_of self.old) (state_of self.new) result }
        ensures recorded { Recorded self.old self.new side acts.Sync result }
        ensures listed { KeepsListed self.old self.new side acts.Sync }
    {
        self.record(side, Act::Sync)
    }
}
