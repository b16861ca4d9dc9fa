//! A source in memory. Contracts see the bytes that are left, how many are read at a time, the reads that will fail, and the count of its faults.
ghost use Rattle.std.specs.Prelude.{◌≡◌, ◌<◌, ◌≤◌, ◌↔◌, [], drop, take, min, IfOk, IsErr, IsTrue, OnOk, length, Some};
ghost use Rattle.std.specs.Io.{ReadsAtMost};
ghost use Rattle.std.specs.Io.KnownBytes.{ReadConsumes};
ghost use Rattle.slee_disk.specs.Causes.{HasCause};
ghost use Rattle.slee_disk.specs.Memory.{fails_next};

use crate::fail_list::FailList;
use crate::{Failed, Source};
use slee_value::Blob;
use std::marker::Model;

/// Bytes in memory, read in pieces. A list says which reads fail, and no other read does.
#[derive(Debug, Drop)]
pub struct MemorySource {
    bytes: Blob,
    at: usize,
    piece: u64,
    fail: FailList,
    faults: u64,
}

impl Model for MemorySource {
    ghost use Rattle.std.specs.Prelude.{◌<◌, ◌≤◌, drop, length};
    ghost use Rattle.slee_disk.specs.Memory.{SourceState};

    ghost Value = { SourceState };

    ghost view = { λ s. record { left = drop s.at s.bytes; piece = s.piece; fails = s.fail; faults = s.faults } };

    ghost invariant = { λ s. (s.at ≤ length s.bytes) × (0 < s.piece) };
}

impl MemorySource {
    /// These bytes, at most `piece` of them in a read. The k-th read fails where the k-th of `fail` is 1.
    pub fn new(bytes: Blob, piece: u64, fail: Blob) -> Self
        requires { 0 < piece }
        ensures { result ≡ record { left = bytes; piece = piece; fails = fail; faults = 0 } }
    {
        MemorySource {
            bytes,
            at: 0,
            piece,
            fail: FailList::new(fail),
            faults: 0,
        }
    }

    // Whether this read fails.
    fn fails_now(&mut self) -> bool
        ensures fails { result ≡ fails_next self.old.fails }
        ensures state { self.new ≡ record self.old { fails = drop 1 self.old.fails } }
    {
        self.fail.next()
    }

    // Reads one piece.
    fn take_piece(&mut self, into: &mut [u8]) -> usize
        ensures room { length into.new ≡ length into.old }
        ensures count { result ≡ min (min self.old.piece (length into.new)) (length self.old.left) }
        ensures bytes { take result into.new ≡ take result self.old.left }
        ensures state { self.new ≡ record self.old { left = drop result self.old.left } }
    {
        let most = if self.piece < into.len() as u64 {
            self.piece as usize
        } else {
            into.len()
        };
        let count = copy_front(&self.bytes.as_slice()[self.at..], into, most);
        self.at += count;
        count
    }
}

impl Source for MemorySource {
    ghost left = { λ s. Some s.left };

    ghost faults = { λ s. s.faults };

    fn read(&mut self, into: &mut [u8]) -> Result<usize, Failed>
        ensures bound { ReadsAtMost result into.new }
        ensures bytes { ReadConsumes (Some self.old.left) (Some self.new.left) result into.new }
        ensures cause { HasCause self.old.faults self.new.faults result }
        ensures fails { IsErr result ↔ IsTrue (fails_next self.old.fails) }
        ensures rest { self.new.fails ≡ drop 1 self.old.fails }
        ensures count { IfOk result (λ n. n ≡ min (min self.old.piece (length into.new)) (length self.old.left)) }
        ensures quiet { OnOk result (self.new.faults ≡ self.old.faults) }
        ensures piece { self.new.piece ≡ self.old.piece }
    {
        if self.fails_now() {
            self.faults = self.faults.saturating_add(1);
            return Err(Failed);
        }
        Ok(self.take_piece(into))
    }
}

// Copies a front, as long as it can be.
fn copy_front(from: &[u8], into: &mut [u8], most: usize) -> usize
    requires { most ≤ length into.old }
    ensures room { length into.new ≡ length into.old }
    ensures count { result ≡ min most (length from.now) }
    ensures front { take result into.new ≡ take result from.now }
{
    let count = most.min(from.len());
    into[..count].copy_from_slice(&from[..count]);
    count
}
