//! The index from which the next entity is taken. Clauses see it as the list of all attachments, by activity, then by path, and how many more can be listed without memory.
ghost use Rattle.std.specs.Prelude.{◌≡◌, ◌==◌, ◌+◌, ◌<◌, ◌≤◌, [], List, OnOk, IsTrue, map, option_map};
ghost use Rattle.std.specs.List.{list_any};
ghost use Rattle.router_state.specs.declared.rows.Event.{Event};
ghost use Rattle.router_state.specs.declared.rows.Link.{Link};
ghost use Rattle.router_state.specs.declared.rows.Entity.{Entity};
ghost use Rattle.router_state.specs.State.{State};
ghost use Rattle.rows_sorted.specs.Orders.{put, rises_by};
ghost use Rattle.router_state.specs.Contexts.{activities_of, link_before, with_link, without_link, without_links_on};
ghost use Rattle.router_state.specs.Trees.{with_priority};
ghost use Rattle.router_state.specs.Next.{first};
ghost use Rattle.entity_tree.specs.Kept.{is_entity};
ghost use Rattle.router_order.specs.Asked.{IsAbout, is_among};
ghost use Rattle.router_order.specs.Listed.{Agrees, IsListing, listed_before};

use crate::cutting::{cut_entries, cut_link, cut_links_on};
use crate::inserting::insert_link;
use crate::moving::{put_each, take_of};
use crate::placed::Placed;
use crate::ready::first_ready;
use crate::received::Received;
use crate::wants::{Head, Wants};
use entity_tree::Tree;
use event_mask::Masks;
use router_state::Link;
use rows_index::Entry;
use rows_leaves::{Leaves, Run};
use slee_value::{ActivityId, EntityId, NoMemory};
use std::alloc::Global;
use std::marker::Model;

/// All attachments, by activity, then by rank, which rises as the paths of the entities do, and each entity's activities. The spare list is empty but while the attachments to one activity have ranks anew, and the other one but while paths change.
pub struct Order {
    rows: Leaves<Placed>,
    entries: Leaves<Entry>,
    spare: Vec<Link>,
    taken: Vec<Link>,
}

impl Drop for Order {
    fn drop(self) {
        let Self {
            rows: _,
            entries: _,
            spare: _,
            taken: _,
        } = self;
    }
}

impl Model for Order {
    ghost use Rattle.std.specs.Prelude.{◌≡◌, ◌≤◌, [], min, length, ◌-◌, vec_capacity};
    ghost use Rattle.router_order.specs.Listed.{OrderView};
    ghost use Rattle.router_order.specs.Placed.{attachments, IsIndexed};

    ghost Value = { OrderView };

    ghost view = { λ o. record { rows = attachments o.rows.rows; room = min (min o.rows.room o.entries.room) (min (vec_capacity o.spare) (vec_capacity o.taken) - length o.rows.rows) } };

    ghost invariant = { λ o. IsIndexed (attachments o.rows.rows) o.entries.rows × (o.spare.items ≡ []) × (length o.rows.rows ≤ vec_capacity o.spare) × (o.taken.items ≡ []) × (length o.rows.rows ≤ vec_capacity o.taken) };
}

impl Order {
    /// No attachments.
    pub fn new(alloc: Global) -> Self
        ensures rows { result.rows ≡ [] }
        ensures agrees { (entities : List Entity) → Agrees entities [] result.rows }
    {
        Order {
            rows: Leaves::new(alloc),
            entries: Leaves::new(alloc),
            spare: Vec::new(alloc),
            taken: Vec::new(alloc),
        }
    }

    /// Makes room for this many attachments more.
    pub fn reserve(&mut self, rows: u64) -> Result<(), NoMemory>
        ensures rows { self.new.rows ≡ self.old.rows }
        ensures room { OnOk result (rows ≤ self.new.room) }
        ensures grown { self.old.room ≤ self.new.room }
    {
        self.rows.reserve(rows as usize)?;
        self.entries.reserve(rows as usize)?;
        match self.rows.len().checked_add(rows as usize) {
            Some(all) => {
                self.spare.reserve(all)?;
                self.taken.reserve(all)?;
            }
            None => return Err(NoMemory),
        }
        Ok(())
    }

    /// Lists the entity among those that are attached to the activity.
    pub fn attach(&mut self, tree: &Tree, activity: ActivityId, entity: EntityId)
        requires listing { IsListing tree.now.rows self.old.rows }
        requires there { IsTrue (is_entity tree.now.rows entity.0) }
        requires room { 0 < self.old.room }
        ensures listing { IsListing tree.now.rows self.new.rows }
        ensures rows { self.new.rows ≡ put (listed_before tree.now.rows) (record { entity = entity; activity = activity }) self.old.rows }
        ensures agrees { (links : List Link) → Agrees tree.now.rows links self.old.rows → Agrees tree.now.rows (with_link links entity.0 activity.0) self.new.rows }
        ensures room { self.old.room ≤ self.new.room + 1 }
    {
        tree.ordered();
        if self.entries.has_row(entity.0, activity.0, &[]) {
            return;
        }
        insert_link(
            tree,
            &mut self.rows,
            &mut self.spare,
            Link { entity, activity },
        );
        self.entries.put_row(Entry {
            key: entity.0,
            number: activity.0,
        });
    }

    /// The entity isn't listed any longer among those that are attached to the activity.
    pub fn detach(&mut self, tree: &Tree, activity: ActivityId, entity: EntityId)
        requires { IsListing tree.now.rows self.old.rows }
        ensures listing { IsListing tree.now.rows self.new.rows }
        ensures rows { self.new.rows ≡ without_link self.old.rows entity.0 activity.0 }
        ensures agrees { (links : List Link) → Agrees tree.now.rows links self.old.rows → Agrees tree.now.rows (without_link links entity.0 activity.0) self.new.rows }
        ensures room { self.old.room ≤ self.new.room }
    {
        tree.ordered();
        cut_link(&mut self.rows, activity, entity);
        self.entries.cut_row(entity.0, activity.0, &[]);
    }

    /// No entity is listed for the activity.
    pub fn forget_activity(&mut self, activity: ActivityId)
        ensures rows { self.new.rows ≡ without_links_on self.old.rows activity.0 }
        ensures agrees { (entities : List Entity) (links : List Link) → Agrees entities links self.old.rows → Agrees entities (without_links_on links activity.0) self.new.rows }
        ensures room { self.old.room ≤ self.new.room }
    {
        cut_entries(&mut self.entries, self.rows.rows_of(activity.0), activity);
        cut_links_on(&mut self.rows, activity);
    }

    /// The entity has this priority, in the tree too. The attachments of the entity and of those below it are taken out and put in again. It takes no memory, and costs by these attachments and by the entity's tree.
    pub fn set_priority(&mut self, tree: &mut Tree, entity: EntityId, priority: i8)
        requires { IsListing tree.old.rows self.old.rows }
        ensures entities { tree.new.rows ≡ with_priority tree.old.rows entity.0 priority }
        ensures next { tree.new.next ≡ tree.old.next }
        ensures tree_room { tree.old.room ≤ tree.new.room }
        ensures listing { IsListing tree.new.rows self.new.rows }
        ensures agrees { (links : List Link) → Agrees tree.old.rows links self.old.rows → Agrees tree.new.rows links self.new.rows }
        ensures room { self.old.room ≤ self.new.room }
    {
        tree.set_priority(entity, priority);
        tree.ordered();
        match tree.find(entity) {
            Some(_) => {
                take_of(
                    &mut self.rows,
                    &mut self.taken,
                    &self.entries,
                    tree.members(entity),
                );
                put_each(tree, &mut self.rows, &mut self.spare, &self.taken);
                self.taken.clear();
            }
            None => {}
        }
    }

    /// The entity that receives the activity's head event next. Only attachments to the activity are looked at, up to that of the entity.
    pub fn next(
        &self,
        tree: &Tree,
        masks: &Masks,
        activity: ActivityId,
        wants: &Wants<'_>,
    ) -> Option<EntityId>
        ensures { (s : State) (v : Event) → IsAbout s activity.0 v tree.now.rows masks.now.rows wants.now.event.now wants.now.blocks.now wants.now.target (is_among wants.now.delivered.now) → Agrees tree.now.rows s.links self.now.rows → result ≡ option_map (λ row. row.number) (first s activity.0 v) }
    {
        self.next_unmarked(tree, masks, activity, &wants.head(), wants)
    }

    /// The same, where these marks tell who has received the event: the queues know it without a list.
    pub fn next_unmarked<D: Received>(
        &self,
        tree: &Tree,
        masks: &Masks,
        activity: ActivityId,
        head: &Head<'_>,
        marks: &D,
    ) -> Option<EntityId>
        ensures { (s : State) (v : Event) → IsAbout s activity.0 v tree.now.rows masks.now.rows head.now.event.now head.now.blocks.now head.now.target (D.received marks.now activity.0) → Agrees tree.now.rows s.links self.now.rows → result ≡ option_map (λ row. row.number) (first s activity.0 v) }
    {
        tree.ordered();
        let run = self.rows.rows_of(activity.0);
        first_ready(tree, run, masks, activity, head, marks)
    }

    /// The activities to which the entity is attached, rising.
    pub fn of(&self, entity: EntityId) -> Run<'_, Entry>
        ensures { (entities : List Entity) (links : List Link) → IsTrue (rises_by link_before links) → Agrees entities links self.now.rows → map (λ entry. entry.number) result ≡ activities_of links entity.0 }
    {
        self.entries.rises();
        self.entries.rows_of(entity.0)
    }

    /// Whether the entity is attached to an activity.
    pub fn has(&self, entity: EntityId) -> bool
        ensures { (entities : List Entity) (links : List Link) → IsTrue (rises_by link_before links) → Agrees entities links self.now.rows → result ≡ list_any (λ l. l.entity.0 == entity.0) links }
    {
        self.entries.rises();
        self.entries.has_row_of(entity.0)
    }
}
