//! The order of entities by their paths, without the paths: both are followed up from one depth until they meet.
ghost use Rattle.std.specs.Prelude.{◌≡◌, ◌-◌, ◌<◌, ◌≤◌, ◌==◌, false, Some, length, IsTrue};
ghost use Rattle.std.specs.Ordering.{is_lt, is_gt, is_eq};
ghost use Rattle.router_state.specs.Paths.{step_before, path_before};
ghost use Rattle.router_state.specs.Trees.{entity_at};
ghost use Rattle.router_state.specs.declared.rows.Entity.{Entity};
ghost use Rattle.entity_tree.specs.Kept.{AreParents, is_entity};
ghost use Rattle.entity_tree.specs.Climbing.{BeginsWith, path_at, step_of};
ghost use Rattle.entity_tree.specs.Depths.{AreDepths};

use crate::depths::{Depth, depth_of};
use crate::reading::{entity_in, parent_in};
use router_state::Entity;
use rows_leaves::Leaves;
use slee_value::EntityId;
use std::cmp::Ordering;

/// The entity of this number, which is there.
fn entity_there(rows: &Leaves<Entity>, entity: EntityId) -> &Entity
    requires { IsTrue (is_entity rows.now.rows entity.0) }
    ensures { entity_at rows.now.rows entity.0 ≡ Some result.now }
{
    match entity_in(rows, entity) {
        Some(row) => row,
        None => unreachable!(),
    }
}

/// What stands so many steps above the entity.
fn above(rows: &Leaves<Entity>, entity: EntityId, steps: usize) -> &Entity
    requires parents { AreParents rows.now.rows }
    requires within { steps < length (path_at rows.now.rows entity.0) }
    ensures there { entity_at rows.now.rows result.now.number.0 ≡ Some result.now }
    ensures path { BeginsWith (path_at rows.now.rows entity.0) (path_at rows.now.rows result.now.number.0) }
    ensures length { length (path_at rows.now.rows result.now.number.0) ≡ length (path_at rows.now.rows entity.0) - steps }
    ensures none { steps ≡ 0 → result.now.number.0 ≡ entity.0 }
{
    let mut top = entity_there(rows, entity);
    'up: for _ in 0..steps {
        top = entity_there(rows, parent_in(&top.stem));
    }
    top
}

fn compare_rows(one: &Entity, other: &Entity) -> Ordering
    ensures less { is_lt result ≡ step_before (step_of one.now) (step_of other.now) }
    ensures greater { is_gt result ≡ step_before (step_of other.now) (step_of one.now) }
    ensures apart { (one.now.number.0 == other.now.number.0) ≡ false → is_eq result ≡ false }
{
    if other.priority < one.priority {
        return Ordering::Less;
    }
    if one.priority < other.priority {
        return Ordering::Greater;
    }
    one.number.0.cmp(&other.number.0)
}

/// Two entities that stand as deep as each other, by their paths.
fn compare_level(rows: &Leaves<Entity>, one: &Entity, other: &Entity, depth: usize) -> Ordering
    requires parents { AreParents rows.now.rows }
    requires one_there { entity_at rows.now.rows one.now.number.0 ≡ Some one.now }
    requires other_there { entity_at rows.now.rows other.now.number.0 ≡ Some other.now }
    requires depth_of_one { length (path_at rows.now.rows one.now.number.0) ≡ depth }
    requires depth_of_other { length (path_at rows.now.rows other.now.number.0) ≡ depth }
    requires apart { (one.now.number.0 == other.now.number.0) ≡ false }
    ensures less { is_lt result ≡ path_before (path_at rows.now.rows one.now.number.0) (path_at rows.now.rows other.now.number.0) }
    ensures greater { is_gt result ≡ path_before (path_at rows.now.rows other.now.number.0) (path_at rows.now.rows one.now.number.0) }
    ensures apart { is_eq result ≡ false }
{
    let mut left = one;
    let mut right = other;
    let mut steps = depth;
    'up: while 1 < steps && parent_in(&left.stem).0 != parent_in(&right.stem).0 {
        left = entity_there(rows, parent_in(&left.stem));
        right = entity_there(rows, parent_in(&right.stem));
        steps -= 1;
    }
    compare_rows(left, right)
}

/// Two entities by their paths, the other one perhaps deeper.
fn compare_deeper(
    rows: &Leaves<Entity>,
    one: EntityId,
    other: EntityId,
    depth_of_one: usize,
    depth_of_other: usize,
) -> Ordering
    requires parents { AreParents rows.now.rows }
    requires there { 0 < depth_of_one }
    requires deeper { depth_of_one ≤ depth_of_other }
    requires depth_of_one { depth_of_one ≡ length (path_at rows.now.rows one.0) }
    requires depth_of_other { depth_of_other ≡ length (path_at rows.now.rows other.0) }
    ensures less { is_lt result ≡ path_before (path_at rows.now.rows one.0) (path_at rows.now.rows other.0) }
    ensures greater { is_gt result ≡ path_before (path_at rows.now.rows other.0) (path_at rows.now.rows one.0) }
{
    let steps = depth_of_other - depth_of_one;
    let left = above(rows, one, 0);
    let right = above(rows, other, steps);
    if left.number.0 != right.number.0 {
        return compare_level(rows, left, right, depth_of_one);
    }
    if steps == 0 {
        Ordering::Equal
    } else {
        Ordering::Less
    }
}

/// Two entities by their paths. One that isn't there has no steps on its path, and comes first.
pub fn compare(
    rows: &Leaves<Entity>,
    depths: &Leaves<Depth>,
    one: EntityId,
    other: EntityId,
) -> Ordering
    requires parents { AreParents rows.now.rows }
    requires depths { AreDepths rows.now.rows depths.now.rows }
    ensures less { is_lt result ≡ path_before (path_at rows.now.rows one.0) (path_at rows.now.rows other.0) }
    ensures greater { is_gt result ≡ path_before (path_at rows.now.rows other.0) (path_at rows.now.rows one.0) }
{
    let depth_of_one = depth_of(depths, one);
    let depth_of_other = depth_of(depths, other);
    if depth_of_one == 0 || depth_of_other == 0 {
        return depth_of_one.cmp(&depth_of_other);
    }
    if depth_of_one <= depth_of_other {
        compare_deeper(rows, one, other, depth_of_one, depth_of_other)
    } else {
        compare_deeper(rows, other, one, depth_of_other, depth_of_one).reverse()
    }
}
