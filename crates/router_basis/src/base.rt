//! What is read of the state by its keys.
ghost use Rattle.std.specs.Prelude.{◌≡◌};
ghost use Rattle.router_state.specs.Contexts.{is_null};
ghost use Rattle.router_state.specs.Trees.{parent_of};

use crate::Basis;
use crate::listing::numbers_in;
use router_draft::Base;
use router_state::{AcKind, Entity, Stem};
use slee_value::{ActivityId, EntityId, EventId, Name, NoMemory, Text, Value};
use std::alloc::Global;

/// Whether it is that of a null activity.
fn is_null(kind: &AcKind) -> bool
    ensures { result ≡ is_null kind.now }
{
    match kind {
        AcKind::Null => true,
        AcKind::External(_) | AcKind::Service(_) | AcKind::Table(_) => false,
    }
}

/// The number of the parent, 0 for a root.
fn parent_of(row: &Entity) -> u64
    ensures { result ≡ parent_of row.now }
{
    match &row.stem {
        Stem::Root(_) => 0,
        Stem::Child(parent, _) => parent.0,
    }
}

impl<'a> Base for Basis<'a> {
    ghost state = { λ b. b };

    #[tactic(auto, using(crate::proofs::TreeLemmas::are_trees))]
    fn ordered(&self) {
        self.stores.ordered();
        self.stores.tree().ordered();
    }

    fn clock(&self) -> u64 {
        self.stores.clock()
    }

    fn inputs(&self) -> u64 {
        self.stores.inputs()
    }

    fn next_entity(&self) -> u64 {
        self.stores.tree().next_number()
    }

    fn next_activity(&self) -> u64 {
        self.stores.contexts().next_number()
    }

    fn next_timer(&self) -> u64 {
        self.stores.timers().next_number()
    }

    fn next_event(&self) -> u64 {
        self.stores.next_event()
    }

    fn block(&self, entity: EntityId) -> Option<u32> {
        match self.stores.tree().find(entity) {
            Some(row) => Some(row.block),
            None => None,
        }
    }

    fn parent(&self, entity: EntityId) -> Option<u64> {
        match self.stores.tree().find(entity) {
            Some(row) => Some(parent_of(row)),
            None => None,
        }
    }

    fn children(&self, alloc: Global, entity: EntityId) -> Result<Vec<u64>, NoMemory> {
        self.stores.tree().all_children(alloc, entity)
    }

    fn field(&self, entity: EntityId, name: &Name) -> Option<&Value> {
        self.stores.fields().get(entity, name)
    }

    fn activity(&self, activity: ActivityId) -> Option<(bool, bool)> {
        match self.stores.contexts().find(activity) {
            Some(row) => Some((is_null(&row.kind), row.ending)),
            None => None,
        }
    }

    fn named(&self, name: &Text) -> Option<ActivityId> {
        self.stores.contexts().named(name)
    }

    fn is_linked(&self, entity: EntityId, activity: ActivityId) -> bool {
        self.stores.contexts().is_attached(entity, activity)
    }

    fn activities(&self, alloc: Global, entity: EntityId) -> Result<Vec<u64>, NoMemory> {
        numbers_in(alloc, self.stores.activities_of(entity))
    }

    fn head(&self, activity: ActivityId) -> Option<EventId> {
        match self.stores.queues().front(activity) {
            Some(event) => Some(event.id),
            None => None,
        }
    }

    #[tactic(auto, using(crate::proofs::WaitingLemmas::waits_at))]
    fn waiting_at(&self, activity: ActivityId, place: u64) -> Option<EventId> {
        match self.stores.queues().event_at(activity, place) {
            Some(event) => Some(event.id),
            None => None,
        }
    }

    fn is_undelivered(&self, activity: ActivityId) -> bool {
        self.stores.queues().is_undelivered(activity)
    }

    fn is_suspended(&self, activity: ActivityId) -> bool {
        self.stores.queues().suspended_until(activity).is_some()
    }
}
