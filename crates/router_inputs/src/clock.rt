//! The clock comes to a moment.
ghost use Rattle.std.specs.Prelude.{◌≡◌, IfOk, OnOk};
ghost use Rattle.std.specs.Ordering.{is_lt};
ghost use Rattle.rows_sorted.specs.Orders.{sorted};
ghost use Rattle.router_state.specs.Timing.{ending_suspensions, ends_before};
ghost use Rattle.router_steps.specs.Actions.{clocking};
ghost use Rattle.router_inputs.specs.Acting.{answer_in};

use crate::Action;
use event_queue::Queues;
use router_state::Suspension;
use router_steps::Refusal;
use router_stores::Stores;
use slee_value::NoMemory;
use std::alloc::Global;
use std::cmp::Ordering;
use timer_facility::DueFault;

fn compare(one: &Suspension, other: &Suspension) -> Ordering
    ensures { is_lt result ≡ ends_before one.now other.now }
{
    one.until
        .cmp(&other.until)
        .then(one.activity.0.cmp(&other.activity.0))
}

/// Puts the list in order. Of two that are alike the later one goes first, so the list is turned round before a stable sort.
fn put_in_order(list: &mut Vec<Suspension>) -> Result<(), NoMemory>
    ensures { OnOk result (list.new.items ≡ sorted ends_before list.old.items) }
{
    list.reverse();
    list.sort_by(|one, other| compare(one, other))?;
    Ok(())
}

/// The suspensions that end at the moment, by moment and then by activity.
fn ending_suspensions(alloc: Global, queues: &Queues, to: u64) -> Result<Vec<Suspension>, NoMemory>
    ensures { IfOk result (λ list. list.items ≡ ending_suspensions to queues.now.suspensions) }
{
    let mut list = Vec::new(alloc);
    'rows: for row in queues.suspensions() {
        if row.until <= to {
            list.push(*row)?;
        }
    }
    put_in_order(&mut list)?;
    Ok(list)
}

/// The clock comes to the moment, with the suspensions that end and the occurrences that are due.
pub fn clocking(
    alloc: Global,
    stores: &Stores,
    to: u64,
) -> Result<Result<Action, Refusal>, NoMemory>
    ensures { IfOk result (λ answer. answer_in answer ≡ clocking stores.now.state to) }
{
    if to < stores.clock() {
        return Ok(Err(Refusal::ClockBack));
    }
    let occurrences = match stores.timers().due(alloc, to) {
        Ok(list) => list,
        Err(DueFault::TooMany { .. }) => return Ok(Err(Refusal::TooMany)),
        Err(DueFault::NoMemory) => return Err(NoMemory),
    };
    let suspensions = ending_suspensions(alloc, stores.queues(), to)?;
    Ok(Ok(Action::SetClock {
        to,
        suspensions,
        occurrences,
    }))
}
