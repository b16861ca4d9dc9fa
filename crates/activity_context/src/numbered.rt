//! A name under the number of its text.

use router_state::Named;
use rows_sorted::Keyed;

/// A name under the number of its text.
#[derive(Debug, Drop)]
pub struct NumberedName {
    pub number: u64,
    pub named: Named,
}

impl Keyed for NumberedName {
    ghost use Rattle.activity_context.specs.Naming.{numbered_key};

    ghost key = { numbered_key };

    fn first(&self) -> u64 {
        self.number
    }

    fn second(&self) -> u64 {
        self.named.activity.0
    }

    fn text(&self) -> &[u8] {
        self.named.name.as_bytes()
    }
}
