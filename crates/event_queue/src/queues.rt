//! The store of events. Contracts see it as four lists in order, and the number of rows that each of them takes without memory.
ghost use Rattle.std.specs.Prelude.{ℕ, ◌≡◌, ◌==◌, ◌+◌, ◌≤◌, ◌<◌, [], Some, length, slice_get, filter, IsTrue, OnOk, option_copied, option_map};
ghost use Rattle.rows_sorted.specs.Orders.{rises_by};
ghost use Rattle.event_queue.specs.Views.{HasRoom};
ghost use Rattle.router_state.specs.Queues.{queued_before, service_mark_before, entity_mark_before, suspension_before, queue, head_event, is_waiting, is_done, is_delivered, is_undelivered, is_suspended, suspended_until, with_event, without_head, with_service_mark, without_service_marks, with_entity_mark, without_entity_marks, with_suspension, without_suspension};

use router_state::{EntityMark, Event, Queued, ServiceMark, Suspension};
use rows_leaves::{Leaves, Run};
use slee_value::{ActivityId, EntityId, NoMemory};
use std::alloc::Global;
use std::marker::Model;

/// The events that wait on all activities, with marks and suspensions.
pub struct Queues {
    events: Leaves<Queued>,
    services_done: Leaves<ServiceMark>,
    delivered: Leaves<EntityMark>,
    suspensions: Leaves<Suspension>,
}

impl Drop for Queues {
    fn drop(self) {
        let Self {
            events: _,
            services_done: _,
            delivered: _,
            suspensions: _,
        } = self;
    }
}

impl Model for Queues {
    ghost use Rattle.event_queue.specs.Views.{QueuesView};

    ghost Value = { QueuesView };

    ghost view = { λ t. record {
      events = t.events.rows;
      services_done = t.services_done.rows;
      delivered = t.delivered.rows;
      suspensions = t.suspensions.rows;
      events_room = t.events.room;
      services_room = t.services_done.room;
      entities_room = t.delivered.room;
      suspensions_room = t.suspensions.room;
    } };
}

/// The row at this place of the run, counted from 0.
fn row_in(run: Run<'_, Queued>, place: u64) -> Option<&Queued>
    ensures { option_copied result ≡ slice_get run.entry place }
{
    let mut left = run;
    left.nth(place as usize)
}

impl Queues {
    /// No events.
    pub fn new(alloc: Global) -> Self
        ensures events { result.events ≡ [] }
        ensures services_done { result.services_done ≡ [] }
        ensures delivered { result.delivered ≡ [] }
        ensures suspensions { result.suspensions ≡ [] }
    {
        Queues {
            events: Leaves::new(alloc),
            services_done: Leaves::new(alloc),
            delivered: Leaves::new(alloc),
            suspensions: Leaves::new(alloc),
        }
    }

    /// Makes room for this many new rows in each list.
    pub fn reserve(&mut self, rows: u64) -> Result<(), NoMemory>
        ensures kept { self.new ≡ record self.old { events_room = self.new.events_room; services_room = self.new.services_room; entities_room = self.new.entities_room; suspensions_room = self.new.suspensions_room } }
        ensures room { OnOk result (HasRoom rows self.new) }
        ensures grown { (n : ℕ) → HasRoom n self.old → HasRoom n self.new }
    {
        self.events.reserve(rows as usize)?;
        self.services_done.reserve(rows as usize)?;
        self.delivered.reserve(rows as usize)?;
        self.suspensions.reserve(rows as usize)?;
        Ok(())
    }

    /// The event waits on the activity, in the room that was made. A new event has the greatest number, and so waits last.
    pub fn push(&mut self, activity: ActivityId, event: Event)
        requires { 0 < self.old.events_room }
        ensures rows { self.new ≡ record self.old { events = with_event self.old.events activity.0 event; events_room = self.new.events_room } }
        ensures room { self.old.events_room ≤ self.new.events_room + 1 }
    {
        self.events.put_row(Queued { activity, event });
    }

    /// Puts an event of a snapshot back.
    pub fn restore(&mut self, item: Queued)
        requires { 0 < self.old.events_room }
        ensures rows { self.new ≡ record self.old { events = with_event self.old.events item.activity.0 item.event; events_room = self.new.events_room } }
        ensures room { self.old.events_room ≤ self.new.events_room + 1 }
    {
        self.events.put_row(item);
    }

    /// The head event of the activity is gone, with its marks, and is handed out.
    pub fn pop(&mut self, activity: ActivityId) -> Option<Event>
        ensures event { result ≡ head_event self.old.events activity.0 }
        ensures rows { self.new ≡ record self.old {
          events = without_head self.old.events activity.0;
          services_done = without_service_marks self.old.services_done activity.0;
          delivered = without_entity_marks self.old.delivered activity.0;
          events_room = self.new.events_room;
          services_room = self.new.services_room;
          entities_room = self.new.entities_room;
        } }
        ensures room { (n : ℕ) → HasRoom n self.old → HasRoom n self.new }
    {
        self.services_done.cut_rows_of(activity.0);
        self.delivered.cut_rows_of(activity.0);
        match self.events.cut_first_of(activity.0) {
            Some(queued) => Some(queued.event),
            None => None,
        }
    }

    /// The service's selection was done for the head event of the activity.
    pub fn mark_service(&mut self, activity: ActivityId, service: u32)
        requires { 0 < self.old.services_room }
        ensures rows { self.new ≡ record self.old { services_done = with_service_mark self.old.services_done activity.0 service; services_room = self.new.services_room } }
        ensures room { self.old.services_room ≤ self.new.services_room + 1 }
    {
        self.services_done
            .put_row(ServiceMark { activity, service });
    }

    /// The entity has received the head event of the activity.
    pub fn mark_entity(&mut self, activity: ActivityId, entity: EntityId)
        requires { 0 < self.old.entities_room }
        ensures rows { self.new ≡ record self.old { delivered = with_entity_mark self.old.delivered activity.0 entity.0; entities_room = self.new.entities_room } }
        ensures room { self.old.entities_room ≤ self.new.entities_room + 1 }
    {
        self.delivered.put_row(EntityMark { activity, entity });
    }

    /// The head event of the activity is suspended until this moment.
    #[tactic(auto, using(router_state::proofs::AgreeLemmas::suspension_put))]
    pub fn hold(&mut self, activity: ActivityId, until: u64)
        requires { 0 < self.old.suspensions_room }
        ensures rows { self.new ≡ record self.old { suspensions = with_suspension self.old.suspensions activity.0 until; suspensions_room = self.new.suspensions_room } }
        ensures room { self.old.suspensions_room ≤ self.new.suspensions_room + 1 }
    {
        self.suspensions.put_row(Suspension { activity, until });
    }

    /// The head event of the activity isn't suspended. Answers whether it was.
    pub fn release(&mut self, activity: ActivityId) -> bool
        ensures was { result ≡ is_suspended self.old.suspensions activity.0 }
        ensures rows { self.new ≡ record self.old { suspensions = without_suspension self.old.suspensions activity.0; suspensions_room = self.new.suspensions_room } }
        ensures room { self.old.suspensions_room ≤ self.new.suspensions_room }
    {
        let was = self.suspended_until(activity).is_some();
        self.suspensions.cut_rows_of(activity.0);
        was
    }

    /// The moment until which the head event of the activity is suspended.
    pub fn suspended_until(&self, activity: ActivityId) -> Option<u64>
        ensures { result ≡ suspended_until self.now.suspensions activity.0 }
    {
        match self.suspensions.first_row_of(activity.0) {
            Some(row) => Some(row.until),
            None => None,
        }
    }

    /// The head event of the activity: the one that comes next.
    pub fn front(&self, activity: ActivityId) -> Option<&Event>
        ensures { option_copied result ≡ head_event self.now.events activity.0 }
    {
        match self.events.first_row_of(activity.0) {
            Some(row) => Some(&row.event),
            None => None,
        }
    }

    /// The event at this place of the activity's queue, counted from 0.
    pub fn event_at(&self, activity: ActivityId, place: u64) -> Option<&Event>
        ensures { option_copied result ≡ slice_get (queue self.now.events activity.0) place }
    {
        match row_in(self.events.rows_of(activity.0), place) {
            Some(row) => Some(&row.event),
            None => None,
        }
    }

    /// The queue of the activity, the head event first.
    pub fn events_on(&self, activity: ActivityId) -> Run<'_, Queued>
        ensures { result ≡ filter (λ q. q.activity.0 == activity.0) self.now.events }
    {
        self.events.rows_of(activity.0)
    }

    /// Whether an event waits on the activity.
    pub fn is_waiting(&self, activity: ActivityId) -> bool
        ensures { result ≡ is_waiting self.now.events activity.0 }
    {
        self.events.has_row_of(activity.0)
    }

    /// Whether the service's selection was done for the head event of the activity.
    pub fn is_done(&self, activity: ActivityId, service: u32) -> bool
        ensures { result ≡ is_done self.now.services_done activity.0 service }
    {
        self.services_done
            .has_row_of_pair(activity.0, service as u64)
    }

    /// Whether the entity has received the head event of the activity.
    pub fn is_delivered(&self, activity: ActivityId, entity: EntityId) -> bool
        ensures { result ≡ is_delivered self.now.delivered activity.0 entity.0 }
    {
        self.delivered.has_row_of_pair(activity.0, entity.0)
    }

    /// Whether no entity has received the head event of the activity.
    pub fn is_undelivered(&self, activity: ActivityId) -> bool
        ensures { result ≡ is_undelivered self.now.delivered activity.0 }
    {
        !self.delivered.has_row_of(activity.0)
    }

    /// The marks of services for the head event of the activity, rising by service.
    pub fn services_done(&self, activity: ActivityId) -> Run<'_, ServiceMark>
        ensures { result ≡ filter (λ m. m.activity.0 == activity.0) self.now.services_done }
    {
        self.services_done.rows_of(activity.0)
    }

    /// The marks of entities for the head event of the activity, rising by entity.
    pub fn delivered(&self, activity: ActivityId) -> Run<'_, EntityMark>
        ensures { result ≡ filter (λ m. m.activity.0 == activity.0) self.now.delivered }
    {
        self.delivered.rows_of(activity.0)
    }

    /// All suspensions, rising by activity.
    pub fn suspensions(&self) -> Run<'_, Suspension>
        ensures { result ≡ self.now.suspensions }
    {
        self.suspensions.iter()
    }

    /// How many events wait.
    #[tactic(auto, using(router_state::proofs::AgreeLemmas::queued_order, router_state::proofs::AgreeLemmas::service_mark_order, router_state::proofs::AgreeLemmas::entity_mark_order, router_state::proofs::AgreeLemmas::suspension_order))]
    pub fn len(&self) -> u64
        ensures length { result ≡ length self.now.events }
        ensures events { IsTrue (rises_by queued_before self.now.events) }
        ensures services_done { IsTrue (rises_by service_mark_before self.now.services_done) }
        ensures delivered { IsTrue (rises_by entity_mark_before self.now.delivered) }
        ensures suspensions { IsTrue (rises_by suspension_before self.now.suspensions) }
    {
        self.events.rises();
        self.services_done.rises();
        self.delivered.rises();
        self.suspensions.rises();
        self.events.len() as u64
    }

    /// The event at this place of all that wait, counted from 0.
    pub fn at(&self, place: u64) -> &Queued
        requires { place < length self.now.events }
        ensures { slice_get self.now.events place ≡ Some result.now }
    {
        self.events.at(place as usize)
    }
}
