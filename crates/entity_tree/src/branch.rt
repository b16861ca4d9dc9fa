//! Children by their parents.

use rows_sorted::Keyed;
use slee_value::EntityId;

/// An entity below its parent. The parent of a root is 0.
#[derive(Debug, Clone, Copy)]
pub struct Branch {
    pub parent: EntityId,
    pub number: EntityId,
}

impl Keyed for Branch {
    ghost use Rattle.entity_tree.specs.Kept.{branch_key};

    ghost key = { branch_key };

    fn first(&self) -> u64 {
        self.parent.0
    }

    fn second(&self) -> u64 {
        self.number.0
    }

    fn text(&self) -> &[u8] {
        &[]
    }
}
