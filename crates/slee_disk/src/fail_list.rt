//! The list that says which calls of an object in memory fail.
ghost use Rattle.std.specs.Prelude.{◌≡◌, drop};
ghost use Rattle.slee_disk.specs.Memory.{fails_next};

use slee_value::Blob;
use std::marker::Model;

/// What is left of such a list: the first of it is for the next call, which fails where it is 1.
#[derive(Debug, Drop)]
pub(crate) struct FailList {
    list: Blob,
    at: usize,
}

impl Model for FailList {
    ghost use Rattle.std.specs.Prelude.{List, ℕ, ◌≤◌, drop, length};

    ghost Value = { List ℕ };

    ghost view = { λ l. drop l.at l.list };

    ghost invariant = { λ l. l.at ≤ length l.list };
}

impl FailList {
    pub(crate) fn new(list: Blob) -> Self
        ensures { result ≡ list }
    {
        FailList { list, at: 0 }
    }

    /// Whether this call fails.
    pub(crate) fn next(&mut self) -> bool
        ensures fails { result ≡ fails_next self.old }
        ensures rest { self.new ≡ drop 1 self.old }
    {
        if self.at < self.list.len() {
            let fails = self.list.as_slice()[self.at] == 1;
            self.at += 1;
            fails
        } else {
            false
        }
    }
}
