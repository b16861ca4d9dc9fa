//! A sink in memory. Contracts see the bytes that it has, the writes that will fail, and the count of its faults.
ghost use Rattle.std.specs.Prelude.{◌≡◌, ◌<◌, ◌++◌, [], drop, take, IfOk, OnOk, IsErr, IsTrue, Ok, length, Some};
ghost use Rattle.std.specs.Io.{WritesAtMost};
ghost use Rattle.std.specs.Io.KnownBytes.{WriteAppends};
ghost use Rattle.slee_disk.specs.Causes.{HasCause, Rose};
ghost use Rattle.slee_disk.specs.Memory.{fails_next};

use crate::fail_list::FailList;
use crate::{Failed, Sink};
use slee_value::Blob;
use std::alloc::Global;
use std::marker::Model;

/// A sink in memory. A list says which writes fail; want of memory is a fault of its own too.
#[derive(Debug, Drop)]
pub struct MemorySink {
    held: Vec<u8>,
    fail: FailList,
    faults: u64,
}

impl Model for MemorySink {
    ghost use Rattle.slee_disk.specs.Memory.{SinkState};

    ghost Value = { SinkState };

    ghost view = { λ s. record { held = s.held.items; fails = s.fail; faults = s.faults } };
}

impl MemorySink {
    /// Nothing held. The k-th write fails where the k-th of `fail` is 1.
    pub fn new(alloc: Global, fail: Blob) -> Self
        ensures { result ≡ record { held = []; fails = fail; faults = 0 } }
    {
        MemorySink {
            held: Vec::new(alloc),
            fail: FailList::new(fail),
            faults: 0,
        }
    }

    /// What it holds.
    pub fn bytes(&self) -> &[u8]
        ensures { result.now ≡ self.now.held }
    {
        &self.held
    }
}

impl Sink for MemorySink {
    ghost contents = { λ s. Some s.held };

    ghost faults = { λ s. s.faults };

    fn write(&mut self, bytes: &[u8]) -> Result<usize, Failed>
        ensures bound { WritesAtMost result bytes.now }
        ensures bytes { WriteAppends (Some self.old.held) (Some self.new.held) result bytes.now }
        ensures cause { HasCause self.old.faults self.new.faults result }
        ensures none { result ≡ Ok 0 → 0 < length bytes.now → Rose self.old.faults self.new.faults }
        ensures all { IfOk result (λ n. n ≡ length bytes.now) }
        ensures quiet { OnOk result (self.new.faults ≡ self.old.faults) }
        ensures fails { IsTrue (fails_next self.old.fails) → IsErr result }
        ensures rest { self.new.fails ≡ drop 1 self.old.fails }
    {
        if self.fail.next() || self.held.extend_from_slice(bytes).is_err() {
            self.faults = self.faults.saturating_add(1);
            return Err(Failed);
        }
        Ok(bytes.len())
    }
}
