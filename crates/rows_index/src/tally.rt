//! How often an entry stands for something.

use crate::Entry;
use rows_sorted::Keyed;

/// A row's number under a key, and how often it stands there.
#[derive(Debug, Clone, Copy, PartialEq, Eq)]
pub struct Tally {
    pub entry: Entry,
    pub count: u64,
}

impl Keyed for Tally {
    ghost use Rattle.rows_index.specs.Tallies.{tally_key};

    ghost key = { tally_key };

    fn first(&self) -> u64 {
        self.entry.key
    }

    fn second(&self) -> u64 {
        self.entry.number
    }

    fn text(&self) -> &[u8] {
        &[]
    }
}
