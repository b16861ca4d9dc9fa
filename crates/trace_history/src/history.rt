//! The entries of a run. Contracts see them as a list; their text alone is kept.
ghost use Rattle.std.specs.Prelude.{◌≡◌, ◌+◌, ◌≤◌, ◌<◌, ◌++◌, ◌∷◌, ◌^◌, [], length, take, vec_len, vec_capacity, OnOk, decimal};
ghost use Rattle.trace_history.specs.Trace.{entry_text, trace_text};
ghost use Rattle.trace_history.specs.Views.{HasRoomForLines};

use crate::{Entry, Lines};
use itoa::Buffer;
use slee_value::NoMemory;
use std::alloc::Global;
use std::fmt;
use std::marker::Model;
use std::snapshot::Snapshot;

/// Entries in order, and how many more can be added without memory. Their text stands in one piece of memory, and
/// beside it where the text of each ends. What else there is of an entry is known to contracts alone: a snapshot has
/// no bytes.
#[derive(Drop)]
pub struct History {
    entries: Vec<Snapshot<Entry>>,
    text: Vec<u8>,
    ends: Vec<usize>,
}

impl Model for History {
    ghost use Rattle.std.specs.Prelude.{◌≡◌, vec_capacity, vec_len, ◌-◌, map, min};
    ghost use Rattle.trace_history.specs.Trace.{trace_text};
    ghost use Rattle.trace_history.specs.Ends.{AreEndsOf};
    ghost use Rattle.trace_history.specs.Views.{HistoryView};

    ghost Value = { HistoryView };

    ghost view = { λ h. record {
      entries = map (λ entry. entry.value) h.entries.items;
      room = min (vec_capacity h.entries - vec_len h.entries) (vec_capacity h.ends - vec_len h.ends);
      text_room = vec_capacity h.text - vec_len h.text;
    } };

    ghost invariant = { λ h. (h.text.items ≡ trace_text (map (λ entry. entry.value) h.entries.items)) × AreEndsOf (map (λ entry. entry.value) h.entries.items) h.ends.items };
}

impl History {
    /// No entries.
    #[tactic(auto, using(crate::proofs::HistoryLemmas::none_end))]
    pub fn new(alloc: Global) -> Self
        ensures { result.entries ≡ [] }
    {
        History {
            entries: Vec::new(alloc),
            text: Vec::new(alloc),
            ends: Vec::new(alloc),
        }
    }

    /// Makes room for one more entry, of these lines.
    pub fn reserve(&mut self, lines: &Lines) -> Result<(), NoMemory>
        ensures kept { self.new.entries ≡ self.old.entries }
        ensures room { OnOk result (HasRoomForLines lines.now self.new) }
        ensures grown { (self.old.room ≤ self.new.room) × (self.old.text_room ≤ self.new.text_room) }
    {
        let number = next_number(&self.ends);
        self.entries.reserve(1)?;
        self.ends.reserve(1)?;
        self.text.reserve(text_len(number, lines.text()))?;
        Ok(())
    }

    /// Adds an entry at the end, in the room that was made.
    #[tactic(auto, using(crate::proofs::HistoryLemmas::text_more, crate::proofs::HistoryLemmas::ends_more))]
    pub fn push(&mut self, entry: Entry)
        requires { HasRoomForLines entry.lines self.old }
        ensures entries { self.new.entries ≡ self.old.entries ++ entry ∷ [] }
        ensures room { self.old.room ≤ self.new.room + 1 }
        ensures text_room { self.old.text_room ≤ self.new.text_room + length (entry_text (length self.old.entries + 1) entry.lines) }
    {
        let number = next_number(&self.ends);
        add_text(&mut self.text, number, entry.lines.text());
        self.ends.push_reserved(self.text.len());
        self.entries.push_reserved(Snapshot::of(&entry));
    }

    /// How many there are.
    pub fn len(&self) -> u64
        ensures { result ≡ length self.now.entries }
    {
        self.ends.len() as u64
    }

    /// The text of so many entries, from the first on.
    #[tactic(auto, using(crate::proofs::HistoryLemmas::text_cut, crate::proofs::HistoryLemmas::end_of))]
    pub fn text(&self, entries: u64) -> &[u8]
        requires { entries ≤ length self.now.entries }
        ensures { result.now ≡ trace_text (take entries self.now.entries) }
    {
        if entries == 0 {
            return &[];
        }
        let end = self.ends[entries as usize - 1];
        &self.text[..end]
    }
}

impl fmt::Debug for History {
    fn fmt<W: fmt::Write>(&self, f: &mut fmt::Formatter<W>) -> fmt::Result {
        write!(f, "{:?}", self.text)
    }
}

/// The number of the entry that comes next.
fn next_number(ends: &[usize]) -> u64
    ensures number { result ≡ length ends.now + 1 }
    ensures small { result < 2 ^ 64 }
{
    ends.len() as u64 + 1
}

/// How long the text of an entry is.
fn text_len(number: u64, lines: &[u8]) -> usize
    requires { length lines.now < 2 ^ 63 }
    ensures { result ≡ length (decimal number) + 1 + length lines.now }
{
    let mut buffer = Buffer::new();
    buffer.format(number).len() + 1 + lines.len()
}

/// Adds the text of an entry, in the room that was made.
fn add_text(text: &mut Vec<u8>, number: u64, lines: &[u8])
    requires { length text.old.items + (length (decimal number) + 1 + length lines.now) ≤ vec_capacity text.old }
    ensures text { text.new.items ≡ text.old.items ++ (decimal number ++ 32 ∷ lines.now) }
    ensures room { vec_capacity text.old ≤ vec_capacity text.new }
{
    let mut buffer = Buffer::new();
    let Ok(()) = text.extend_from_slice(buffer.format(number).as_bytes()) else {
        unreachable!()
    };
    text.push_reserved(b' ');
    let Ok(()) = text.extend_from_slice(lines) else {
        unreachable!()
    };
}
