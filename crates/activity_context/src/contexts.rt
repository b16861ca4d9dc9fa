//! The contexts of activities; clauses see them as four lists, with the next number and the room.
ghost use Rattle.std.specs.Prelude.{◌≡◌, ◌==◌, ◌+◌, ◌-◌, ◌<◌, ◌≤◌, ◌^◌, not, [], filter, length, map, Some, IsTrue, IfOk, OnOk, OnErr, slice_get, option_copied, option_map};
ghost use Rattle.std.specs.List.Sorted.{IsPermutation};
ghost use Rattle.rows_sorted.specs.Orders.{rises_in, are_below, put, rises_by};
ghost use Rattle.router_state.specs.Contexts.{activity_at, external, with_activity, with_end, without_activity, attribute_at, attribute_before, link_before, name_before, with_attribute, without_attributes, is_linked, links_on, with_link, without_link, without_links_on, named_at, with_name, without_name, without_names_of};
ghost use Rattle.activity_context.specs.Faults.{fault_of, start_fault, active_fault, bind_fault, unbind_fault};
ghost use Rattle.activity_context.specs.Views.{HasRoom, activity_before, parts_of_link, parts_of_name, parts_of_attribute};

use crate::activities::Activities;
use crate::names::Names;
use crate::{AcFault, attributes, links};
use router_state::{AcKind, Activity, Attribute, Link};
use rows_leaves::{Leaves, Run};
use slee_value::{ActivityId, EntityId, Name, NoMemory, Text, Value};
use std::alloc::Global;
use std::marker::Model;

/// Activities with their attributes, attachments and names; each activity has a number that is drawn once.
pub struct Contexts {
    activities: Activities,
    attributes: Leaves<Attribute>,
    links: Leaves<Link>,
    names: Names,
    next: u64,
}

impl Drop for Contexts {
    fn drop(self) {
        let Self {
            activities: _,
            attributes: _,
            links: _,
            names: _,
            next: _,
        } = self;
    }
}

impl Model for Contexts {
    ghost use Rattle.activity_context.specs.Views.{ContextsView};

    ghost Value = { ContextsView };

    ghost use Rattle.activity_context.specs.Kept.{seen, IsKept};

    ghost view = { seen };

    ghost invariant = { IsKept };
}

impl Contexts {
    /// No activities.
    pub fn new(alloc: Global) -> Self
        ensures activities { result.activities ≡ [] }
        ensures attributes { result.attributes ≡ [] }
        ensures links { result.links ≡ [] }
        ensures names { result.names ≡ [] }
        ensures next { result.next ≡ 1 }
    {
        Contexts {
            activities: Activities::new(alloc),
            attributes: Leaves::new(alloc),
            links: Leaves::new(alloc),
            names: Names::new(alloc),
            next: 1,
        }
    }

    /// Passes on that the lists rise, that activities' numbers are below the next one, and that the names are kept in some order.
    pub fn ordered(&self)
        ensures activities { IsTrue (rises_in (λ row. row.number.0) self.now.activities) }
        ensures below { IsTrue (are_below (λ row. row.number.0) self.now.next self.now.activities) }
        ensures attributes { IsTrue (rises_by attribute_before self.now.attributes) }
        ensures links { IsTrue (rises_by link_before self.now.links) }
        ensures names { IsTrue (rises_by name_before self.now.names) }
        ensures names_kept { IsPermutation self.now.names self.now.names_kept }
    {
        let _next = self.next;
        self.activities.ordered();
        self.names.ordered();
        self.attributes.rises();
        self.links.rises();
    }

    /// Makes room for so many more rows in each list.
    pub fn reserve(&mut self, rows: u64) -> Result<(), NoMemory>
        ensures kept { self.new ≡ record self.old { rooms = self.new.rooms } }
        ensures room { OnOk result (HasRoom rows self.new.rooms) }
        ensures activities { self.old.rooms.activities ≤ self.new.rooms.activities }
        ensures attributes { self.old.rooms.attributes ≤ self.new.rooms.attributes }
        ensures links { self.old.rooms.links ≤ self.new.rooms.links }
        ensures names { self.old.rooms.names ≤ self.new.rooms.names }
    {
        self.activities.reserve(rows)?;
        self.attributes.reserve(rows as usize)?;
        self.links.reserve(rows as usize)?;
        self.names.reserve(rows)?;
        Ok(())
    }

    fn add_activity(&mut self, kind: AcKind) -> ActivityId
        requires room { 0 < self.old.rooms.activities }
        requires next { self.old.next < 2 ^ 64 - 1 }
        ensures number { result.0 ≡ self.old.next }
        ensures started { self.new ≡ record self.old { activities = with_activity self.old.activities self.old.next kind; next = self.old.next + 1; rooms = record self.old.rooms { activities = self.new.rooms.activities } } }
        ensures room { self.old.rooms.activities ≤ self.new.rooms.activities + 1 }
    {
        let number = self.next;
        self.activities.push(number, kind);
        self.next += 1;
        ActivityId(number)
    }

    /// A new activity with the next number.
    pub fn start(&mut self, kind: AcKind) -> Result<ActivityId, AcFault>
        requires room { 0 < self.old.rooms.activities }
        requires next { self.old.next < 2 ^ 64 - 1 }
        ensures fault { fault_of result ≡ start_fault self.old.activities kind }
        ensures number { IfOk result (λ activity. activity.0 ≡ self.old.next) }
        ensures started { OnOk result (self.new ≡ record self.old { activities = with_activity self.old.activities self.old.next kind; next = self.old.next + 1; rooms = record self.old.rooms { activities = self.new.rooms.activities } }) }
        ensures room { OnOk result (self.old.rooms.activities ≤ self.new.rooms.activities + 1) }
        ensures kept { OnErr result (self.new ≡ self.old) }
    {
        match self.activities.fault_of_start(&kind) {
            Some(fault) => Err(fault),
            None => Ok(self.add_activity(kind)),
        }
    }

    /// The activity is Ending from now on.
    pub fn end(&mut self, activity: ActivityId) -> Result<(), AcFault>
        ensures fault { fault_of result ≡ active_fault self.old.activities activity.0 }
        ensures ended { OnOk result (self.new ≡ record self.old { activities = with_end self.old.activities activity.0; rooms = record self.old.rooms { activities = self.new.rooms.activities } }) }
        ensures room { self.old.rooms.activities ≤ self.new.rooms.activities }
        ensures kept { OnErr result (self.new ≡ self.old) }
    {
        match self.activities.fault_of_use(activity) {
            Some(fault) => Err(fault),
            None => {
                self.activities.end(activity);
                Ok(())
            }
        }
    }

    /// The activity is gone, with its attachments, attributes and names.
    pub fn drop_context(&mut self, activity: ActivityId)
        ensures activities { self.new.activities ≡ without_activity self.old.activities activity.0 }
        ensures attributes { self.new.attributes ≡ without_attributes self.old.attributes activity.0 }
        ensures links { self.new.links ≡ without_links_on self.old.links activity.0 }
        ensures names { self.new.names ≡ without_names_of self.old.names activity.0 }
        ensures next { self.new.next ≡ self.old.next }
        ensures activity_room { self.old.rooms.activities ≤ self.new.rooms.activities }
        ensures attribute_room { self.old.rooms.attributes ≤ self.new.rooms.attributes }
        ensures link_room { self.old.rooms.links ≤ self.new.rooms.links }
        ensures name_room { self.old.rooms.names ≤ self.new.rooms.names }
    {
        self.activities.cut(activity);
        self.attributes.cut_rows_of(activity.0);
        self.links.cut_rows_of(activity.0);
        self.names.cut_of(activity);
    }

    /// The entity is attached to the activity. Answers whether it wasn't.
    pub fn attach(&mut self, entity: EntityId, activity: ActivityId) -> bool
        requires { 0 < self.old.rooms.links }
        ensures changed { result ≡ not (is_linked self.old.links entity.0 activity.0) }
        ensures attached { self.new ≡ record self.old { links = with_link self.old.links entity.0 activity.0; rooms = record self.old.rooms { links = self.new.rooms.links } } }
        ensures room { self.old.rooms.links ≤ self.new.rooms.links + 1 }
    {
        let there = self.is_attached(entity, activity);
        links::put_link(&mut self.links, entity, activity);
        !there
    }

    /// The entity isn't attached to the activity. Answers whether it was.
    pub fn detach(&mut self, entity: EntityId, activity: ActivityId) -> bool
        ensures changed { result ≡ is_linked self.old.links entity.0 activity.0 }
        ensures detached { self.new ≡ record self.old { links = without_link self.old.links entity.0 activity.0; rooms = record self.old.rooms { links = self.new.rooms.links } } }
        ensures room { self.old.rooms.links ≤ self.new.rooms.links }
    {
        let there = self.is_attached(entity, activity);
        links::cut_link(&mut self.links, entity, activity);
        there
    }

    /// The activity's attribute has this value.
    pub fn set_attr(&mut self, activity: ActivityId, key: Text, value: Value)
        requires { 0 < self.old.rooms.attributes }
        ensures set { self.new ≡ record self.old { attributes = with_attribute self.old.attributes activity.0 key value; rooms = record self.old.rooms { attributes = self.new.rooms.attributes } } }
        ensures room { self.old.rooms.attributes ≤ self.new.rooms.attributes + 1 }
    {
        attributes::put_attribute(&mut self.attributes, activity, key, value);
    }

    fn fault_of_bind(&self, name: &Text, activity: ActivityId) -> Option<AcFault>
        ensures { result ≡ bind_fault self.now.activities self.now.names name.now activity.0 }
    {
        match self.activities.fault_of_use(activity) {
            Some(fault) => Some(fault),
            None => match self.names.activity_named(name) {
                Some(to) => Some(AcFault::Bound { to }),
                None => None,
            },
        }
    }

    /// The name stands for the activity.
    pub fn bind(&mut self, name: Text, activity: ActivityId) -> Result<(), AcFault>
        requires { 0 < self.old.rooms.names }
        ensures fault { fault_of result ≡ bind_fault self.old.activities self.old.names name activity.0 }
        ensures bound { OnOk result (self.new ≡ record self.old { names = with_name self.old.names name activity.0; names_kept = self.new.names_kept; rooms = record self.old.rooms { names = self.new.rooms.names } }) }
        ensures room { self.old.rooms.names ≤ self.new.rooms.names + 1 }
        ensures kept { OnErr result (self.new ≡ self.old) }
    {
        match self.fault_of_bind(&name, activity) {
            Some(fault) => Err(fault),
            None => {
                self.names.put(name, activity);
                Ok(())
            }
        }
    }

    /// The name stands for nothing any more.
    pub fn unbind(&mut self, name: &Text) -> Result<(), AcFault>
        ensures fault { fault_of result ≡ unbind_fault self.old.names name.now }
        ensures unbound { OnOk result (self.new ≡ record self.old { names = without_name self.old.names name.now; names_kept = self.new.names_kept; rooms = record self.old.rooms { names = self.new.rooms.names } }) }
        ensures room { self.old.rooms.names ≤ self.new.rooms.names }
        ensures kept { OnErr result (self.new ≡ self.old) }
    {
        match self.names.activity_named(name) {
            Some(_) => {
                self.names.cut(name);
                Ok(())
            }
            None => Err(AcFault::Unbound),
        }
    }

    /// Puts an activity back with its number. Another one of this number gives way.
    pub fn restore(&mut self, activity: Activity)
        requires room { 0 < self.old.rooms.activities }
        requires below { activity.number.0 < self.old.next }
        ensures restored { self.new ≡ record self.old { activities = put activity_before activity self.old.activities; rooms = record self.old.rooms { activities = self.new.rooms.activities } } }
        ensures room { self.old.rooms.activities ≤ self.new.rooms.activities + 1 }
    {
        self.activities.put(activity);
    }

    /// Puts an attachment back.
    pub fn restore_link(&mut self, entity: EntityId, activity: ActivityId)
        requires { 0 < self.old.rooms.links }
        ensures restored { self.new ≡ record self.old { links = with_link self.old.links entity.0 activity.0; rooms = record self.old.rooms { links = self.new.rooms.links } } }
        ensures room { self.old.rooms.links ≤ self.new.rooms.links + 1 }
    {
        self.attach(entity, activity);
    }

    /// Puts a name back.
    pub fn restore_name(&mut self, name: Text, activity: ActivityId)
        requires { 0 < self.old.rooms.names }
        ensures restored { self.new ≡ record self.old { names = with_name self.old.names name activity.0; names_kept = self.new.names_kept; rooms = record self.old.rooms { names = self.new.rooms.names } } }
        ensures room { self.old.rooms.names ≤ self.new.rooms.names + 1 }
    {
        self.names.put(name, activity);
    }

    /// The number that the next activity has.
    pub fn next_number(&self) -> u64
        ensures { result ≡ self.now.next }
    {
        self.next
    }

    /// The next activity has this number.
    pub fn set_next(&mut self, next: u64)
        requires { IsTrue (are_below (λ row. row.number.0) next self.old.activities) }
        ensures { self.new ≡ record self.old { next = next } }
    {
        self.next = next;
    }

    /// How many activities there are.
    pub fn len(&self) -> u64
        ensures { result ≡ length self.now.activities }
    {
        self.activities.len() as u64
    }

    /// The activity at this place; they rise by number.
    pub fn at(&self, place: u64) -> &Activity
        requires { place < length self.now.activities }
        ensures { slice_get self.now.activities place ≡ Some result.now }
    {
        self.activities.at(place as usize)
    }

    /// How many attachments there are.
    pub fn links_len(&self) -> u64
        ensures { result ≡ length self.now.links }
    {
        self.links.len() as u64
    }

    /// The attachment at this place; they rise by activity, then by entity.
    pub fn links_at(&self, place: u64) -> (EntityId, ActivityId)
        requires { place < length self.now.links }
        ensures { option_map parts_of_link (slice_get self.now.links place) ≡ Some result }
    {
        let row = self.links.at(place as usize);
        (row.entity, row.activity)
    }

    /// How many names there are.
    pub fn names_len(&self) -> u64
        ensures { result ≡ length self.now.names }
    {
        self.names.len() as u64
    }

    /// The name at this place, with its activity; they stand in an order of their own.
    pub fn names_at(&self, place: u64) -> (&Text, ActivityId)
        requires { place < length self.now.names }
        ensures { option_map parts_of_name (slice_get self.now.names_kept place) ≡ Some (result.0.now, result.1) }
    {
        let row = self.names.at(place as usize);
        (&row.name, row.activity)
    }

    /// How many attributes were set.
    pub fn attrs_len(&self) -> u64
        ensures { result ≡ length self.now.attributes }
    {
        self.attributes.len() as u64
    }

    /// The attribute at this place; they rise by activity, then by key.
    pub fn attrs_at(&self, place: u64) -> (ActivityId, &Text, &Value)
        requires { place < length self.now.attributes }
        ensures { option_map parts_of_attribute (slice_get self.now.attributes place) ≡ Some (result.0, result.1.now, result.2.now) }
    {
        let row = self.attributes.at(place as usize);
        (row.activity, &row.key, &row.value)
    }

    /// The attributes of the activity, rising by key.
    pub fn attrs_of(&self, activity: ActivityId) -> Run<'_, Attribute>
        ensures { result ≡ filter (λ row. row.activity.0 == activity.0) self.now.attributes }
    {
        self.attributes.rows_of(activity.0)
    }

    /// The activity of this number.
    pub fn find(&self, activity: ActivityId) -> Option<&Activity>
        ensures { option_copied result ≡ activity_at self.now.activities activity.0 }
    {
        self.activities.find(activity)
    }

    /// The external activity of this name.
    pub fn external(&self, name: &Name) -> Option<ActivityId>
        ensures { result ≡ option_map (λ row. row.number) (external self.now.activities name.now) }
    {
        match self.activities.external(name) {
            Some(row) => Some(row.number),
            None => None,
        }
    }

    /// The activity for which a name stands.
    pub fn named(&self, name: &Text) -> Option<ActivityId>
        ensures { result ≡ named_at self.now.names name.now }
    {
        self.names.activity_named(name)
    }

    /// The names that stand for the activity, rising in byte order. Only these are looked at.
    pub fn names_of(&self, alloc: Global, activity: ActivityId) -> Result<Vec<Text>, NoMemory>
        ensures { IfOk result (λ all. all.items ≡ map (λ row. row.name) (filter (λ row. row.activity.0 == activity.0) self.now.names)) }
    {
        self.names.of(alloc, activity)
    }

    /// The value of an attribute that was set.
    pub fn attr(&self, activity: ActivityId, key: &Text) -> Option<&Value>
        ensures { option_copied result ≡ attribute_at self.now.attributes activity.0 key.now }
    {
        match self.attributes.row_of(activity.0, 0, key.as_bytes()) {
            Some(row) => Some(&row.value),
            None => None,
        }
    }

    /// Whether the entity is attached to the activity.
    pub fn is_attached(&self, entity: EntityId, activity: ActivityId) -> bool
        ensures { result ≡ is_linked self.now.links entity.0 activity.0 }
    {
        links::has_link(&self.links, entity, activity)
    }

    /// The attachments to the activity.
    pub fn links_on(&self, activity: ActivityId) -> Run<'_, Link>
        ensures { result ≡ links_on self.now.links activity.0 }
    {
        self.links.rows_of(activity.0)
    }
}
