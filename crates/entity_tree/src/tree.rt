//! The store of entities. Clauses see it as its entities by number, the number of the next one, and how many more can be added without memory.
ghost use Rattle.std.specs.Prelude.{◌≡◌, ◌||◌, ◌+◌, ◌<◌, ◌≤◌, ◌^◌, [], Some, None, nat_lt, length, map, slice_get, IsTrue, IfOk, OnOk, option_copied};
ghost use Rattle.router_state.specs.declared.rows.Stem.TheVariants as stems;
ghost use Rattle.rows_sorted.specs.Orders.{put, are_below};
ghost use Rattle.router_state.specs.Trees.{children, children_under, entity_at, is_root, number_of, parent_in, parent_of, service_of, tree_of, with_entity, with_priority, without_entity};
ghost use Rattle.router_state.specs.Paths.{path_before};
ghost use Rattle.std.specs.Ordering.{is_lt, is_gt};
ghost use Rattle.std.specs.Borrow.{sem};
ghost use Rattle.rows_sorted.specs.Keys.{Rises};
ghost use Rattle.router_state.specs.Keys.{entity_key};
ghost use Rattle.entity_tree.specs.Climbing.{path_at};
ghost use Rattle.entity_tree.specs.Kept.{AreEntities, AreParents, entity_before, is_entity, numbers_of};
ghost use Rattle.entity_tree.specs.Lending.{KeepsTree};

use crate::branch::Branch;
use crate::depths::Depth;
use crate::{growing, paths, reading, removal};
use router_state::{Entity, Stem};
use rows_leaves::Leaves;
use slee_value::{EntityId, Name, NoMemory};
use std::alloc::Global;
use std::cmp::Ordering;
use std::marker::Model;

/// All entities, and the number of the next one. The other two lists have room for all entities: one is of the tree that was asked for last, and the other one of those entities that are still to come into it.
pub struct Tree {
    rows: Leaves<Entity>,
    branches: Leaves<Branch>,
    depths: Leaves<Depth>,
    members: Vec<EntityId>,
    waiting: Vec<EntityId>,
    next: u64,
}

impl Drop for Tree {
    fn drop(self) {
        let Self {
            rows: _,
            branches: _,
            depths: _,
            members: _,
            waiting: _,
            next: _,
        } = self;
    }
}

impl Model for Tree {
    ghost use Rattle.std.specs.Prelude.{◌≤◌, ◌-◌, min, length, vec_capacity};
    ghost use Rattle.entity_tree.specs.Views.{TreeView};
    ghost use Rattle.entity_tree.specs.Kept.{AreEntities, IsIndex};
    ghost use Rattle.entity_tree.specs.Depths.{AreDepths};

    ghost Value = { TreeView };

    ghost view = { λ t. record { rows = t.rows.rows; next = t.next; room = min (min t.rows.room (min t.branches.room t.depths.room)) (min (vec_capacity t.members) (vec_capacity t.waiting) - length t.rows.rows) } };

    ghost invariant = { λ t. AreEntities t.next t.rows.rows × IsIndex t.rows.rows t.branches.rows × AreDepths t.rows.rows t.depths.rows × (length t.rows.rows ≤ vec_capacity t.members) × (length t.rows.rows ≤ vec_capacity t.waiting) };
}

impl Tree {
    /// No entities. The first one will have the number 1.
    pub fn new(alloc: Global) -> Self
        ensures rows { result.rows ≡ [] }
        ensures next { result.next ≡ 1 }
    {
        Tree {
            rows: Leaves::new(alloc),
            branches: Leaves::new(alloc),
            depths: Leaves::new(alloc),
            members: Vec::new(alloc),
            waiting: Vec::new(alloc),
            next: 1,
        }
    }

    /// Makes room for this many new entities.
    pub fn reserve(&mut self, entities: u64) -> Result<(), NoMemory>
        ensures rows { self.new.rows ≡ self.old.rows }
        ensures next { self.new.next ≡ self.old.next }
        ensures room { OnOk result (entities ≤ self.new.room) }
        ensures grown { self.old.room ≤ self.new.room }
    {
        self.rows.reserve(entities as usize)?;
        self.branches.reserve(entities as usize)?;
        self.depths.reserve(entities as usize)?;
        match self.rows.len().checked_add(entities as usize) {
            Some(all) => {
                self.members.clear();
                self.waiting.clear();
                self.members.reserve(all)?;
                self.waiting.reserve(all)?;
            }
            None => return Err(NoMemory),
        }
        Ok(())
    }

    fn create(&mut self, block: u32, stem: Stem, priority: i8) -> EntityId
        requires room { 0 < self.old.room }
        requires next { self.old.next + 1 < 2 ^ 64 }
        requires parent { IsTrue (is_root stem || is_entity self.old.rows (parent_in stem)) }
        ensures number { result.0 ≡ self.old.next }
        ensures rows { self.new.rows ≡ with_entity self.old.rows self.old.next block stem priority }
        ensures next { self.new.next ≡ self.old.next + 1 }
        ensures room { self.old.room ≤ self.new.room + 1 }
    {
        let number = EntityId(self.next);
        growing::add(
            &mut self.rows,
            &mut self.branches,
            &mut self.depths,
            Entity {
                number,
                block,
                stem,
                priority,
            },
        );
        self.next += 1;
        number
    }

    /// A new root of the service. It has the next number.
    pub fn create_root(&mut self, block: u32, service: u32, priority: i8) -> EntityId
        requires room { 0 < self.old.room }
        requires next { self.old.next + 1 < 2 ^ 64 }
        ensures number { result.0 ≡ self.old.next }
        ensures rows { self.new.rows ≡ with_entity self.old.rows self.old.next block (stems.Root service) priority }
        ensures next { self.new.next ≡ self.old.next + 1 }
        ensures room { self.old.room ≤ self.new.room + 1 }
    {
        self.create(block, Stem::Root(service), priority)
    }

    /// A new child of the entity under the relation. It has the next number.
    pub fn create_child(
        &mut self,
        parent: EntityId,
        relation: Name,
        block: u32,
        priority: i8,
    ) -> EntityId
        requires room { 0 < self.old.room }
        requires next { self.old.next + 1 < 2 ^ 64 }
        requires there { IsTrue (is_entity self.old.rows parent.0) }
        ensures number { result.0 ≡ self.old.next }
        ensures rows { self.new.rows ≡ with_entity self.old.rows self.old.next block (stems.Child parent relation) priority }
        ensures next { self.new.next ≡ self.old.next + 1 }
        ensures room { self.old.room ≤ self.new.room + 1 }
    {
        self.create(block, Stem::Child(parent, relation), priority)
    }

    /// Puts an entity of a snapshot back under its number. One that comes behind its children costs a way over all entities, since their depths are counted anew.
    pub fn restore(&mut self, item: Entity)
        requires room { 0 < self.old.room }
        requires absent { entity_at self.old.rows item.number.0 ≡ None }
        requires drawn { item.number.0 < self.old.next }
        requires parent { parent_of item < item.number.0 }
        ensures rows { self.new.rows ≡ put entity_before item self.old.rows }
        ensures next { self.new.next ≡ self.old.next }
        ensures room { self.old.room ≤ self.new.room + 1 }
    {
        growing::restore(&mut self.rows, &mut self.branches, &mut self.depths, item);
    }

    /// The next entity will have this number.
    pub fn set_next(&mut self, next: u64)
        requires one { 0 < next }
        requires above { IsTrue (are_below number_of next self.old.rows) }
        ensures rows { self.new.rows ≡ self.old.rows }
        ensures next { self.new.next ≡ next }
        ensures room { self.new.room ≡ self.old.room }
    {
        self.next = next;
    }

    /// The number of the next entity.
    pub fn next_number(&self) -> u64
        ensures { result ≡ self.now.next }
    {
        self.next
    }

    /// The tree of the entity in the order in which it goes: children by number, each behind its own tree, and then the entity.
    pub fn removal(&self, alloc: Global, top: EntityId) -> Result<Vec<EntityId>, NoMemory>
        requires { IsTrue (is_entity self.now.rows top.0) }
        ensures { IfOk result (λ all. numbers_of all.items ≡ tree_of self.now.rows top.0) }
    {
        removal::removal(alloc, &self.rows, &self.branches, top)
    }

    /// The same, in a list that the store has room for: it takes no memory.
    pub fn members(&mut self, top: EntityId) -> &[EntityId]
        requires { IsTrue (is_entity self.old.rows top.0) }
        ensures members { numbers_of result.now ≡ tree_of self.old.rows top.0 }
        ensures* kept { sem 𝓛 (KeepsTree self.entry) }
    {
        match removal::list(
            &self.rows,
            &self.branches,
            top,
            &mut self.waiting,
            &mut self.members,
        ) {
            Ok(()) => {}
            Err(_) => unreachable!(),
        }
        &self.members
    }

    /// The entity is gone.
    pub fn remove(&mut self, entity: EntityId)
        requires { children self.old.rows entity.0 ≡ [] }
        ensures rows { self.new.rows ≡ without_entity self.old.rows entity.0 }
        ensures next { self.new.next ≡ self.old.next }
        ensures room { self.old.room ≤ self.new.room }
    {
        growing::cut(&mut self.rows, &mut self.branches, &mut self.depths, entity);
    }

    /// Whether the entity has a child.
    pub fn has_child(&self, entity: EntityId) -> bool
        ensures { result ≡ nat_lt 0 (length (children self.now.rows entity.0)) }
    {
        reading::has_child(&self.branches, entity)
    }

    /// The children of the entity under the relation, by number.
    pub fn children(
        &self,
        alloc: Global,
        entity: EntityId,
        relation: &Name,
    ) -> Result<Vec<EntityId>, NoMemory>
        ensures { IfOk result (λ all. numbers_of all.items ≡ children_under self.now.rows entity.0 relation.now) }
    {
        reading::children_under(alloc, &self.rows, &self.branches, entity, relation)
    }

    /// The numbers of the children of an entity, whatever their relations, rising; of 0, those of the roots. Only these are looked at.
    pub fn all_children(&self, alloc: Global, entity: EntityId) -> Result<Vec<u64>, NoMemory>
        ensures { IfOk result (λ all. all.items ≡ map number_of (children self.now.rows entity.0)) }
    {
        reading::all_children(alloc, &self.branches, entity)
    }

    /// Two entities by their paths, which are followed and not listed. One that isn't there has no steps on its path, and comes first.
    pub fn compare(&self, one: EntityId, other: EntityId) -> Ordering
        ensures less { is_lt result ≡ path_before (path_at self.now.rows one.0) (path_at self.now.rows other.0) }
        ensures greater { is_gt result ≡ path_before (path_at self.now.rows other.0) (path_at self.now.rows one.0) }
    {
        paths::compare(&self.rows, &self.depths, one, other)
    }

    /// Passes on that entities rise by number, that numbers are below the next one, and that a parent's number is below its child's.
    pub fn ordered(&self)
        ensures rises { Rises entity_key self.now.rows }
        ensures kept { AreEntities self.now.next self.now.rows }
        ensures parents { AreParents self.now.rows }
    {
        let _next = self.next;
        self.rows.rises();
    }

    /// The entity has this priority.
    pub fn set_priority(&mut self, entity: EntityId, priority: i8)
        ensures rows { self.new.rows ≡ with_priority self.old.rows entity.0 priority }
        ensures next { self.new.next ≡ self.old.next }
        ensures room { self.old.room ≤ self.new.room }
    {
        growing::set_priority(&mut self.rows, entity, priority);
    }

    /// The service of the tree in which this entity of the store stands.
    pub fn service(&self, row: &Entity) -> Option<u32>
        ensures { result ≡ service_of self.now.rows row.now }
    {
        reading::service_of(&self.rows, row)
    }

    /// The entity of this number.
    pub fn find(&self, entity: EntityId) -> Option<&Entity>
        ensures { option_copied result ≡ entity_at self.now.rows entity.0 }
    {
        reading::entity_in(&self.rows, entity)
    }

    /// How many entities there are.
    pub fn len(&self) -> u64
        ensures { result ≡ length self.now.rows }
    {
        self.rows.len() as u64
    }

    /// The entity at this place by number, counted from 0.
    pub fn at(&self, place: u64) -> &Entity
        requires { place < length self.now.rows }
        ensures { slice_get self.now.rows place ≡ Some result.now }
    {
        self.rows.at(place as usize)
    }
}
