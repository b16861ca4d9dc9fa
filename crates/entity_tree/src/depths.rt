//! How deep entities stand: kept by their numbers, so that no path is followed to be counted.
ghost use Rattle.std.specs.Prelude.{◌≡◌, ◌+◌, ◌<◌, ◌≤◌, ◌^◌};
ghost use Rattle.entity_tree.specs.Kept.{AreParents};
ghost use Rattle.entity_tree.specs.Depths.{AreDepths, HasDepths, depth_at, with_steps};

use crate::reading::parent_in;
use router_state::Entity;
use rows_leaves::Leaves;
use rows_sorted::Keyed;
use slee_value::EntityId;

/// How many steps the path of an entity has.
#[derive(Debug, Clone, Copy)]
pub struct Depth {
    pub entity: EntityId,
    pub steps: usize,
}

impl Keyed for Depth {
    ghost use Rattle.entity_tree.specs.Depths.{depth_key};

    ghost key = { depth_key };

    fn first(&self) -> u64 {
        self.entity.0
    }

    fn second(&self) -> u64 {
        0
    }

    fn text(&self) -> &[u8] {
        &[]
    }
}

/// The depth of the entity, and 0 where it isn't there.
#[tactic(auto, using(crate::proofs::DepthLemmas::found_by_number))]
pub fn depth_of(depths: &Leaves<Depth>, entity: EntityId) -> usize
    ensures { result ≡ depth_at depths.now.rows entity.0 }
{
    match depths.row_of(entity.0, 0, &[]) {
        Some(depth) => depth.steps,
        None => 0,
    }
}

/// One step more than the path of the parent has.
pub fn steps_below(depths: &Leaves<Depth>, parent: EntityId) -> usize
    requires { depth_at depths.now.rows parent.0 + 1 < 2 ^ 64 }
    ensures { result ≡ depth_at depths.now.rows parent.0 + 1 }
{
    depth_of(depths, parent) + 1
}

/// The entity stands one step below its parent.
fn settle_one(depths: &mut Leaves<Depth>, entity: EntityId, parent: EntityId)
    requires { depth_at depths.old.rows parent.0 < entity.0 }
    ensures rows { depths.new.rows ≡ with_steps depths.old.rows entity.0 (depth_at depths.old.rows parent.0 + 1) }
    ensures room { depths.old.room ≤ depths.new.room }
{
    let steps = steps_below(depths, parent);
    depths.change_row(entity.0, 0, &[], |depth| depth.steps = steps);
}

/// Counts the depths of all entities anew, from parent to child.
pub fn settle(rows: &Leaves<Entity>, depths: &mut Leaves<Depth>)
    requires parents { AreParents rows.now.rows }
    requires kept { HasDepths rows.now.rows depths.old.rows }
    ensures depths { AreDepths rows.now.rows depths.new.rows }
    ensures room { depths.old.room ≤ depths.new.room }
{
    rows.rises();
    'rows: for row in rows.iter() {
        settle_one(depths, row.number, parent_in(&row.stem));
    }
}
