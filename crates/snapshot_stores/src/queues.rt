//! The store of events, and of what stands beside head events.
ghost use Rattle.std.specs.Prelude.{◌≡◌, ◌≤◌, [], IfOk, IsTrue, length};
ghost use Rattle.rows_sorted.specs.Orders.{rises_by};
ghost use Rattle.router_state.specs.Queues.{entity_mark_before, queued_before, service_mark_before, suspension_before};

use event_queue::Queues;
use router_state::{EntityMark, Queued, ServiceMark, Suspension};
use slee_value::NoMemory;
use std::alloc::Global;

fn add_events(queues: &mut Queues, rows: Vec<Queued>)
    requires room { length rows.items ≤ queues.old.events_room }
    requires none { queues.old.events ≡ [] }
    requires rises { IsTrue (rises_by queued_before rows.items) }
    ensures { queues.new ≡ record queues.old { events = rows.items; events_room = queues.new.events_room } }
{
    'rows: for row in rows {
        queues.restore(row);
    }
}

fn add_services(queues: &mut Queues, rows: Vec<ServiceMark>)
    requires room { length rows.items ≤ queues.old.services_room }
    requires none { queues.old.services_done ≡ [] }
    requires rises { IsTrue (rises_by service_mark_before rows.items) }
    ensures { queues.new ≡ record queues.old { services_done = rows.items; services_room = queues.new.services_room } }
{
    'rows: for row in rows {
        queues.mark_service(row.activity, row.service);
    }
}

fn add_entities(queues: &mut Queues, rows: Vec<EntityMark>)
    requires room { length rows.items ≤ queues.old.entities_room }
    requires none { queues.old.delivered ≡ [] }
    requires rises { IsTrue (rises_by entity_mark_before rows.items) }
    ensures { queues.new ≡ record queues.old { delivered = rows.items; entities_room = queues.new.entities_room } }
{
    'rows: for row in rows {
        queues.mark_entity(row.activity, row.entity);
    }
}

fn add_suspensions(queues: &mut Queues, rows: Vec<Suspension>)
    requires room { length rows.items ≤ queues.old.suspensions_room }
    requires none { queues.old.suspensions ≡ [] }
    requires rises { IsTrue (rises_by suspension_before rows.items) }
    ensures { queues.new ≡ record queues.old { suspensions = rows.items; suspensions_room = queues.new.suspensions_room } }
{
    'rows: for row in rows {
        queues.hold(row.activity, row.until);
    }
}

/// The four lists.
pub(crate) fn queues_of(
    alloc: Global,
    events: Vec<Queued>,
    services_done: Vec<ServiceMark>,
    delivered: Vec<EntityMark>,
    suspensions: Vec<Suspension>,
) -> Result<Queues, NoMemory>
    requires events { IsTrue (rises_by queued_before events.items) }
    requires services_done { IsTrue (rises_by service_mark_before services_done.items) }
    requires delivered { IsTrue (rises_by entity_mark_before delivered.items) }
    requires suspensions { IsTrue (rises_by suspension_before suspensions.items) }
    ensures events { IfOk result (λ q. q.events ≡ events.items) }
    ensures services_done { IfOk result (λ q. q.services_done ≡ services_done.items) }
    ensures delivered { IfOk result (λ q. q.delivered ≡ delivered.items) }
    ensures suspensions { IfOk result (λ q. q.suspensions ≡ suspensions.items) }
{
    let mut queues = Queues::new(alloc);
    let marks = services_done.len().max(delivered.len());
    let most = events.len().max(suspensions.len());
    queues.reserve(most.max(marks) as u64)?;
    add_events(&mut queues, events);
    add_services(&mut queues, services_done);
    add_entities(&mut queues, delivered);
    add_suspensions(&mut queues, suspensions);
    Ok(queues)
}
