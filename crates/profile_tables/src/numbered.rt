//! A row under the number of its name.

use router_state::ProfileRow;
use rows_sorted::Keyed;

/// A row under the number of its name.
#[derive(Debug, Drop)]
pub struct NumberedRow {
    pub number: u64,
    pub item: ProfileRow,
}

impl Keyed for NumberedRow {
    ghost use Rattle.profile_tables.specs.Keeping.{numbered_key};

    ghost key = { numbered_key };

    fn first(&self) -> u64 {
        self.number
    }

    fn second(&self) -> u64 {
        self.item.table as u64
    }

    fn text(&self) -> &[u8] {
        self.item.row.as_bytes()
    }
}
