//! A row's number under a key.

use rows_sorted::Keyed;

/// A row's number under a key.
#[derive(Debug, Clone, Copy, PartialEq, Eq)]
pub struct Entry {
    pub key: u64,
    pub number: u64,
}

impl Keyed for Entry {
    ghost use Rattle.rows_index.specs.Index.{entry_key};

    ghost key = { entry_key };

    fn first(&self) -> u64 {
        self.key
    }

    fn second(&self) -> u64 {
        self.number
    }

    fn text(&self) -> &[u8] {
        &[]
    }
}
