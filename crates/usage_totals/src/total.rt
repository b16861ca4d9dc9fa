//! A usage count.
ghost use Rattle.std.specs.Prelude.{◌≡◌, ◌+◌, ◌-◌, ◌<◌, ◌^◌, pos, ◌+ℤ◌, ◌≤ℤ◌};

use rows_sorted::Keyed;
use slee_value::Blob;

/// A usage count: its name, how often it was added to, and the sum of what was added.
#[derive(Debug, Drop)]
pub struct Total {
    pub name: Blob,
    pub count: u64,
    pub sum: i128,
}

impl Keyed for Total {
    ghost use Rattle.usage_totals.specs.Totals.{total_key};

    ghost key = { total_key };

    fn first(&self) -> u64 {
        0
    }

    fn second(&self) -> u64 {
        0
    }

    fn text(&self) -> &[u8] {
        self.name.as_slice()
    }
}

/// Adds an amount.
pub fn raise(row: &mut Total, amount: i64)
    requires count { row.old.count < 2 ^ 64 - 1 }
    requires low { pos 0 ≤ℤ (row.old.sum +ℤ pos (2 ^ 126)) }
    requires high { row.old.sum ≤ℤ pos (2 ^ 126) }
    ensures { row.new ≡ record row.old { count = row.old.count + 1; sum = row.old.sum +ℤ amount } }
{
    row.count += 1;
    row.sum += i128::from(amount);
}
