//! The lines of events that wait.
ghost use Rattle.std.specs.Prelude.{◌≡◌, ◌++◌, IfOk, OnOk, map, nat_lt};
ghost use Rattle.std.specs.Ordering.{is_lt};
ghost use Rattle.router_state.specs.Show.{by_number, is_head, pending_line, suspended_words};
ghost use Rattle.trace_history.specs.Lines.{line_text, line_texts};

use crate::words::{put, put_number};
use event_queue::Queues;
use router_state::Queued;
use router_stores::Stores;
use slee_value::NoMemory;
use std::alloc::Global;
use std::cmp::Ordering;

fn is_head(queues: &Queues, row: &Queued) -> bool
    ensures { result ≡ is_head queues.now.events row.now.activity.0 row.now.event.id.0 }
{
    match queues.front(row.activity) {
        Some(event) => event.id.0 == row.event.id.0,
        None => false,
    }
}

/// Adds the moment until which the event is suspended, if it is.
fn put_suspended(
    alloc: Global,
    stores: &Stores,
    row: &Queued,
    into: &mut Vec<u8>,
) -> Result<(), NoMemory>
    ensures { OnOk result (into.new.items ≡ into.old.items ++ suspended_words stores.now.state row.now) }
{
    if !is_head(stores.queues(), row) {
        return Ok(());
    }
    match stores.queues().suspended_until(row.activity) {
        Some(until) => {
            put(" suspended ", into)?;
            put_number(alloc, until, into)
        }
        None => Ok(()),
    }
}

fn put_pending(
    alloc: Global,
    stores: &Stores,
    row: &Queued,
    into: &mut Vec<u8>,
) -> Result<(), NoMemory>
    ensures { OnOk result (into.new.items ≡ into.old.items ++ line_text (pending_line stores.now.state row.now)) }
{
    let words = format!(in alloc;
        "pending v{} {} a{}",
        row.event.id.0,
        row.event.name.as_str(),
        row.activity.0
    )?;
    put(&words, into)?;
    put_suspended(alloc, stores, row, into)?;
    put("\n", into)
}

fn queued(alloc: Global, queues: &Queues) -> Result<Vec<&Queued>, NoMemory>
    ensures { IfOk result (λ v. map (λ q. q.now) v.items ≡ queues.now.events) }
{
    let mut events = Vec::new(alloc);
    'events: for place in 0..queues.len() {
        events.push(queues.at(place))?;
    }
    Ok(events)
}

fn compare(one: &Queued, other: &Queued) -> Ordering
    ensures { is_lt result ≡ nat_lt one.now.event.id.0 other.now.event.id.0 }
{
    one.event.id.0.cmp(&other.event.id.0)
}

/// Puts the events in order by number. Of two with the same number the later one goes first, so the list is turned round before a stable sort.
fn put_in_order(events: &mut Vec<&Queued>) -> Result<(), NoMemory>
    ensures { OnOk result (map (λ q. q.now) events.new.items ≡ by_number (map (λ q. q.now) events.old.items)) }
{
    events.reverse();
    events.sort_by(|one, other| compare(one, other))?;
    Ok(())
}

fn put_each(
    alloc: Global,
    stores: &Stores,
    events: &[&Queued],
    into: &mut Vec<u8>,
) -> Result<(), NoMemory>
    ensures { OnOk result (into.new.items ≡ into.old.items ++ line_texts (map (pending_line stores.now.state) (map (λ q. q.now) events.now))) }
{
    'events: for event in events {
        put_pending(alloc, stores, event, into)?;
    }
    Ok(())
}

/// Adds the lines of all events that wait, by number over all activities.
pub fn put_events(alloc: Global, stores: &Stores, into: &mut Vec<u8>) -> Result<(), NoMemory>
    ensures { OnOk result (into.new.items ≡ into.old.items ++ line_texts (map (pending_line stores.now.state) (by_number stores.now.state.events))) }
{
    let mut events = queued(alloc, stores.queues())?;
    put_in_order(&mut events)?;
    put_each(alloc, stores, &events, into)
}
