//! An attachment with its rank.
ghost use Rattle.std.specs.Prelude.{◌≡◌};
ghost use Rattle.router_order.specs.Placed.{attachment};

use router_state::Link;
use rows_sorted::Keyed;
use slee_value::{ActivityId, EntityId};

/// An attachment with its rank among those to its activity.
#[derive(Debug, Clone, Copy)]
pub struct Placed {
    pub activity: ActivityId,
    pub rank: u64,
    pub entity: EntityId,
}

impl Keyed for Placed {
    ghost use Rattle.router_order.specs.Placed.{placed_key};

    ghost key = { placed_key };

    fn first(&self) -> u64 {
        self.activity.0
    }

    fn second(&self) -> u64 {
        self.rank
    }

    fn text(&self) -> &[u8] {
        &[]
    }
}

/// The attachment without its rank.
pub fn attachment(row: &Placed) -> Link
    ensures { result ≡ attachment row.now }
{
    Link {
        entity: row.entity,
        activity: row.activity,
    }
}
