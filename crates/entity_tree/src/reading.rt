//! Entities read by their numbers, and children by their parents.
ghost use Rattle.std.specs.Prelude.{◌≡◌, ◌==◌, [], false, length, map, filter, nat_lt, option_copied, IfOk};
ghost use Rattle.std.specs.Option.{option_map_or};
ghost use Rattle.router_state.specs.Trees.{entity_at, parent_in, is_child_of, children_under, service_above, service_of};
ghost use Rattle.entity_tree.specs.Kept.{IsIndex, parent_at, numbers_of};

use crate::branch::Branch;
use router_state::{Entity, Stem};
use rows_leaves::Leaves;
use slee_value::{EntityId, Name, NoMemory};
use std::alloc::Global;

/// The entity of this number.
#[tactic(auto, using(crate::proofs::RowLemmas::found_by_number))]
pub fn entity_in(rows: &Leaves<Entity>, entity: EntityId) -> Option<&Entity>
    ensures { option_copied result ≡ entity_at rows.now.rows entity.0 }
{
    rows.row_of(entity.0, 0, &[])
}

/// The number of the parent, and 0 for a root.
pub fn parent_in(stem: &Stem) -> EntityId
    ensures { result.0 ≡ parent_in stem.now }
{
    match stem {
        Stem::Root(_) => EntityId(0),
        Stem::Child(parent, _) => *parent,
    }
}

/// The number of the entity's parent, and 0 for a root or where there is no such entity.
pub fn parent_at(rows: &Leaves<Entity>, entity: EntityId) -> EntityId
    ensures { result.0 ≡ parent_at rows.now.rows entity.0 }
{
    match entity_in(rows, entity) {
        Some(row) => parent_in(&row.stem),
        None => EntityId(0),
    }
}

fn is_child_of(entity: EntityId, relation: &Name, stem: &Stem) -> bool
    ensures { result ≡ is_child_of entity.0 relation.now stem.now }
{
    match stem {
        Stem::Root(_) => false,
        Stem::Child(parent, own) => {
            parent.0 == entity.0 && own.as_bytes() == relation.as_bytes()
        }
    }
}

fn is_child_at(rows: &Leaves<Entity>, entity: EntityId, relation: &Name, number: EntityId) -> bool
    ensures { result ≡ option_map_or (λ row. is_child_of entity.0 relation.now row.stem) (entity_at rows.now.rows number.0) false }
{
    match entity_in(rows, number) {
        Some(row) => is_child_of(entity, relation, &row.stem),
        None => false,
    }
}

/// The children of the entity under the relation, rising.
pub fn children_under(
    alloc: Global,
    rows: &Leaves<Entity>,
    branches: &Leaves<Branch>,
    entity: EntityId,
    relation: &Name,
) -> Result<Vec<EntityId>, NoMemory>
    requires { IsIndex rows.now.rows branches.now.rows }
    ensures { IfOk result (λ all. numbers_of all.items ≡ children_under rows.now.rows entity.0 relation.now) }
{
    rows.rises();
    let mut all = Vec::new(alloc);
    'children: for branch in branches.rows_of(entity.0) {
        if is_child_at(rows, entity, relation, branch.number) {
            all.push(branch.number)?;
        }
    }
    Ok(all)
}

/// The numbers of the children of the entity, whatever their relations, rising. Only these are looked at.
pub fn all_children(
    alloc: Global,
    branches: &Leaves<Branch>,
    entity: EntityId,
) -> Result<Vec<u64>, NoMemory>
    ensures { IfOk result (λ all. all.items ≡ map (λ branch. branch.number.0) (filter (λ branch. branch.parent.0 == entity.0) branches.now.rows)) }
{
    let mut all = Vec::new(alloc);
    'children: for branch in branches.rows_of(entity.0) {
        all.push(branch.number.0)?;
    }
    Ok(all)
}

/// Whether the entity has a child.
#[tactic(auto, using(crate::proofs::ListLemmas::some_left))]
pub fn has_child(branches: &Leaves<Branch>, entity: EntityId) -> bool
    ensures { result ≡ nat_lt 0 (length (filter (λ branch. branch.parent.0 == entity.0) branches.now.rows)) }
{
    branches.has_row_of(entity.0)
}

fn own_service(stem: &Stem) -> Option<u32>
    ensures { result ≡ service_above 0 [] stem.now }
{
    match stem {
        Stem::Root(service) => Some(*service),
        Stem::Child(..) => None,
    }
}

/// The service of the entity's tree.
pub fn service_of(rows: &Leaves<Entity>, row: &Entity) -> Option<u32>
    ensures { result ≡ service_of rows.now.rows row.now }
{
    let mut top = row;
    'rows: for _ in 0..rows.len() {
        match &top.stem {
            Stem::Root(service) => return Some(*service),
            Stem::Child(parent, _) => match entity_in(rows, *parent) {
                Some(above) => top = above,
                None => return None,
            },
        }
    }
    own_service(&top.stem)
}
