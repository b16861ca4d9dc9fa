//! The order in which a tree goes: children by number, each behind its own tree, and then the entity.
ghost use Rattle.std.specs.Prelude.{◌≡◌, ◌==◌, ◌+◌, ◌++◌, ◌≤◌, map, filter, length, IfOk, IsOk, OnOk, IsTrue, vec_capacity, vec_len};
ghost use Rattle.router_state.specs.Trees.{tree_of};
ghost use Rattle.entity_tree.specs.Kept.{AreParents, IsIndex, is_entity, numbers_of};

use crate::branch::Branch;
use router_state::Entity;
use rows_leaves::Leaves;
use slee_value::{EntityId, NoMemory};
use std::alloc::Global;

/// Adds the children of the entity, rising. A list with room for them takes no memory.
fn push_children(
    branches: &Leaves<Branch>,
    entity: EntityId,
    into: &mut Vec<EntityId>,
) -> Result<(), NoMemory>
    ensures items { OnOk result (into.new.items ≡ into.old.items ++ map (λ branch. branch.number) (filter (λ branch. branch.parent.0 == entity.0) branches.now.rows)) }
    ensures fits { vec_len into.old + length (filter (λ branch. branch.parent.0 == entity.0) branches.now.rows) ≤ vec_capacity into.old → IsOk result }
    ensures capacity { vec_capacity into.old ≤ vec_capacity into.new }
{
    'children: for branch in branches.rows_of(entity.0) {
        into.push(branch.number)?;
    }
    Ok(())
}

/// Lists the tree of the entity in the order in which it goes. Last comes first here, until the list is turned round. Two lists with room for all entities take no memory.
pub fn list(
    rows: &Leaves<Entity>,
    branches: &Leaves<Branch>,
    top: EntityId,
    waiting: &mut Vec<EntityId>,
    all: &mut Vec<EntityId>,
) -> Result<(), NoMemory>
    requires parents { AreParents rows.now.rows }
    requires index { IsIndex rows.now.rows branches.now.rows }
    requires there { IsTrue (is_entity rows.now.rows top.0) }
    ensures order { OnOk result (numbers_of all.new.items ≡ tree_of rows.now.rows top.0) }
    ensures fits { length rows.now.rows ≤ vec_capacity waiting.old → length rows.now.rows ≤ vec_capacity all.old → IsOk result }
    ensures waiting_capacity { vec_capacity waiting.old ≤ vec_capacity waiting.new }
    ensures capacity { vec_capacity all.old ≤ vec_capacity all.new }
{
    rows.rises();
    waiting.clear();
    all.clear();
    waiting.push(top)?;
    'tree: while let Some(entity) = waiting.pop() {
        push_children(branches, entity, waiting)?;
        all.push(entity)?;
    }
    all.reverse();
    Ok(())
}

/// The tree of the entity in the order in which it goes.
pub fn removal(
    alloc: Global,
    rows: &Leaves<Entity>,
    branches: &Leaves<Branch>,
    top: EntityId,
) -> Result<Vec<EntityId>, NoMemory>
    requires parents { AreParents rows.now.rows }
    requires index { IsIndex rows.now.rows branches.now.rows }
    requires there { IsTrue (is_entity rows.now.rows top.0) }
    ensures { IfOk result (λ all. numbers_of all.items ≡ tree_of rows.now.rows top.0) }
{
    let mut waiting = Vec::new(alloc);
    let mut all = Vec::new(alloc);
    list(rows, branches, top, &mut waiting, &mut all)?;
    Ok(all)
}
