//! Entities, the index of children and the depths, changed together.
ghost use Rattle.std.specs.Prelude.{◌≡◌, ◌<◌, ◌≤◌, ◌+◌, [], None, length};
ghost use Rattle.rows_sorted.specs.Orders.{put};
ghost use Rattle.router_state.specs.Trees.{children, entity_at, parent_of, with_priority, without_entity};
ghost use Rattle.entity_tree.specs.Kept.{AreParents, IsIndex, entity_before};
ghost use Rattle.entity_tree.specs.Depths.{AreDepths, HasDepths};

use crate::branch::Branch;
use crate::depths::{Depth, settle, steps_below};
use crate::reading::{has_child, parent_at, parent_in};
use router_state::Entity;
use rows_leaves::Leaves;
use slee_value::EntityId;

/// The entity stands in its place, and its parent finds it. Where it has children already, their depths are still to be settled.
pub fn add(
    rows: &mut Leaves<Entity>,
    branches: &mut Leaves<Branch>,
    depths: &mut Leaves<Depth>,
    row: Entity,
)
    requires room { 0 < rows.old.room }
    requires branch_room { 0 < branches.old.room }
    requires depth_room { 0 < depths.old.room }
    requires parents { AreParents rows.old.rows }
    requires index { IsIndex rows.old.rows branches.old.rows }
    requires depths { AreDepths rows.old.rows depths.old.rows }
    requires absent { entity_at rows.old.rows row.number.0 ≡ None }
    requires parent { parent_of row < row.number.0 }
    ensures rows { rows.new.rows ≡ put entity_before row rows.old.rows }
    ensures index { IsIndex rows.new.rows branches.new.rows }
    ensures depths { children rows.old.rows row.number.0 ≡ [] → AreDepths rows.new.rows depths.new.rows }
    ensures kept { HasDepths rows.new.rows depths.new.rows }
    ensures room { rows.old.room ≤ rows.new.room + 1 }
    ensures whole { rows.new.room + length rows.new.rows ≡ rows.old.room + length rows.old.rows }
    ensures branch_room { branches.old.room ≤ branches.new.room + 1 }
    ensures depth_room { depths.old.room ≤ depths.new.room + 1 }
{
    rows.rises();
    let parent = parent_in(&row.stem);
    let steps = steps_below(depths, parent);
    depths.put_row(Depth {
        entity: row.number,
        steps,
    });
    branches.put_row(Branch {
        parent,
        number: row.number,
    });
    rows.put_row(row);
}

/// The entity stands in its place, perhaps behind its children.
pub fn restore(
    rows: &mut Leaves<Entity>,
    branches: &mut Leaves<Branch>,
    depths: &mut Leaves<Depth>,
    row: Entity,
)
    requires room { 0 < rows.old.room }
    requires branch_room { 0 < branches.old.room }
    requires depth_room { 0 < depths.old.room }
    requires parents { AreParents rows.old.rows }
    requires index { IsIndex rows.old.rows branches.old.rows }
    requires depths { AreDepths rows.old.rows depths.old.rows }
    requires absent { entity_at rows.old.rows row.number.0 ≡ None }
    requires parent { parent_of row < row.number.0 }
    ensures rows { rows.new.rows ≡ put entity_before row rows.old.rows }
    ensures index { IsIndex rows.new.rows branches.new.rows }
    ensures depths { AreDepths rows.new.rows depths.new.rows }
    ensures room { rows.old.room ≤ rows.new.room + 1 }
    ensures whole { rows.new.room + length rows.new.rows ≡ rows.old.room + length rows.old.rows }
    ensures branch_room { branches.old.room ≤ branches.new.room + 1 }
    ensures depth_room { depths.old.room ≤ depths.new.room + 1 }
{
    let is_parent = has_child(branches, row.number);
    add(rows, branches, depths, row);
    if is_parent {
        settle(rows, depths);
    }
}

/// The entity is gone, and its parent doesn't find it.
pub fn cut(
    rows: &mut Leaves<Entity>,
    branches: &mut Leaves<Branch>,
    depths: &mut Leaves<Depth>,
    entity: EntityId,
)
    requires parents { AreParents rows.old.rows }
    requires index { IsIndex rows.old.rows branches.old.rows }
    requires depths { AreDepths rows.old.rows depths.old.rows }
    requires childless { children rows.old.rows entity.0 ≡ [] }
    ensures rows { rows.new.rows ≡ without_entity rows.old.rows entity.0 }
    ensures index { IsIndex rows.new.rows branches.new.rows }
    ensures depths { AreDepths rows.new.rows depths.new.rows }
    ensures room { rows.old.room ≤ rows.new.room }
    ensures whole { rows.new.room + length rows.new.rows ≡ rows.old.room + length rows.old.rows }
    ensures branch_room { branches.old.room ≤ branches.new.room }
    ensures depth_room { depths.old.room ≤ depths.new.room }
{
    rows.rises();
    let parent = parent_at(rows, entity);
    branches.cut_row(parent.0, entity.0, &[]);
    depths.cut_row(entity.0, 0, &[]);
    rows.cut_row(entity.0, 0, &[]);
}

/// The entity has this priority.
pub fn set_priority(rows: &mut Leaves<Entity>, entity: EntityId, priority: i8)
    ensures rows { rows.new.rows ≡ with_priority rows.old.rows entity.0 priority }
    ensures room { rows.old.room ≤ rows.new.room }
    ensures whole { rows.new.room + length rows.new.rows ≡ rows.old.room + length rows.old.rows }
{
    rows.change_row(entity.0, 0, &[], |row| row.priority = priority);
}
