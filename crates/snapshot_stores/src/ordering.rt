//! What is kept beside the stores: attachments in the order of paths, and the activities that are ready.
ghost use Rattle.std.specs.Prelude.{◌≡◌, ◌+◌, ◌<◌, ◌≤◌, if◌then◌else◌, IfOk, IsTrue, true};
ghost use Rattle.std.specs.List.{AllByRecursion};
ghost use Rattle.rows_sorted.specs.Keys.{key_before};
ghost use Rattle.rows_sorted.specs.Orders.{put, rises_by, rises_in};
ghost use Rattle.entity_tree.specs.Kept.{is_entity};
ghost use Rattle.router_state.specs.Contexts.{link_before};
ghost use Rattle.router_order.specs.Listed.{Agrees};
ghost use Rattle.router_stores.specs.Ready.{is_ready, ready_key};
ghost use Rattle.snapshot_stores.specs.Ready.{ready_among};

use entity_tree::Tree;
use event_queue::Queues;
use router_order::Order;
use router_state::{Activity, Link};
use router_stores::Ready;
use rows_leaves::Leaves;
use slee_value::{ActivityId, NoMemory};
use std::alloc::Global;

/// The attachments in the order of paths.
pub(crate) fn order_of(alloc: Global, tree: &Tree, links: &[Link]) -> Result<Order, NoMemory>
    requires rises { IsTrue (rises_by link_before links.now) }
    requires there { AllByRecursion (λ l. is_entity tree.now.rows l.entity.0 ≡ true) links.now }
    ensures { IfOk result (λ order. Agrees tree.now.rows links.now order.rows) }
{
    let mut order = Order::new(alloc);
    order.reserve(links.len() as u64)?;
    'links: for link in links {
        order.attach(tree, link.activity, link.entity);
    }
    Ok(order)
}

fn is_ready(queues: &Queues, activity: ActivityId) -> bool
    ensures { result ≡ is_ready queues.now.events queues.now.suspensions activity.0 }
{
    if queues.suspended_until(activity).is_some() {
        return false;
    }
    queues.is_waiting(activity)
}

/// Adds the activity, if it is ready.
fn add_ready(queues: &Queues, activity: ActivityId, ready: &mut Leaves<Ready>)
    requires { 0 < ready.old.room }
    ensures rows { ready.new.rows ≡ (if is_ready queues.now.events queues.now.suspensions activity.0 then put (λ x y. key_before (ready_key x) (ready_key y)) (record { activity = activity }) ready.old.rows else ready.old.rows) }
    ensures room { ready.old.room ≤ ready.new.room + 1 }
{
    if is_ready(queues, activity) {
        ready.put_row(Ready { activity });
    }
}

/// Those of the activities that are ready.
pub(crate) fn ready_of(
    alloc: Global,
    queues: &Queues,
    activities: &[Activity],
) -> Result<Leaves<Ready>, NoMemory>
    requires { IsTrue (rises_in (λ row. row.number.0) activities.now) }
    ensures { IfOk result (λ ready. ready.rows ≡ ready_among queues.now.events queues.now.suspensions activities.now) }
{
    let mut ready = Leaves::new(alloc);
    ready.reserve(activities.len())?;
    'activities: for activity in activities {
        add_ready(queues, activity.number, &mut ready);
    }
    Ok(ready)
}
