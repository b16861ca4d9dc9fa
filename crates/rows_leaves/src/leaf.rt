//! A leaf: some rows that rise by their keys. It is found by the key of its last row, whose numbers it has beside the rows.
ghost use Rattle.std.specs.Prelude.{◌≡◌};
ghost use Rattle.rows_leaves.specs.Laying.{last_key, numbers_of};

use rows_sorted::Keyed;

/// How many rows a leaf holds at most.
pub const LEAF_ROWS: usize = 64;

/// Half of that. Two leaves side by side hold more than twice as many, or can be one.
pub const HALF_LEAF: usize = 32;

/// The two numbers of a key.
#[derive(Debug, Clone, Copy, PartialEq, Eq)]
pub struct Numbers {
    pub first: u64,
    pub second: u64,
}

/// Some rows that rise by their keys, and the numbers of the last one. A search reads these alone, which lie side by side.
#[derive(Drop)]
pub struct Leaf<R> {
    pub rows: Vec<R>,
    pub last: Numbers,
}

/// The numbers of the last one of the rows, or 0 where there is none.
pub fn last_numbers<R: Keyed>(rows: &[R]) -> Numbers
    ensures { result ≡ numbers_of (last_key R.key rows.now) }
{
    match rows.last() {
        Some(row) => Numbers {
            first: row.first(),
            second: row.second(),
        },
        None => Numbers {
            first: 0,
            second: 0,
        },
    }
}

impl<R: Keyed> Keyed for Leaf<R> {
    ghost use Rattle.rows_leaves.specs.Laying.{last_key};

    ghost key = { λ leaf. record { first = leaf.last.first; second = leaf.last.second; text = (last_key R.key leaf.rows.items).text } };

    fn first(&self) -> u64 {
        self.last.first
    }

    fn second(&self) -> u64 {
        self.last.second
    }

    fn text(&self) -> &[u8] {
        match self.rows.last() {
            Some(row) => row.text(),
            None => &[],
        }
    }
}
