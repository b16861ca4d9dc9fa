//! The timers to which entries lead, in a list.
ghost use Rattle.std.specs.Prelude.{◌≡◌, map, reverse, OnOk, IfOk};
ghost use Rattle.std.specs.List.{flat_map};
ghost use Rattle.std.specs.Ordering.{is_lt};
ghost use Rattle.rows_sorted.specs.Orders.{sorted};
ghost use Rattle.timer_facility.specs.Indexed.{timers_at};
ghost use Rattle.timer_facility.specs.Views.{timer_before};

use router_state::Timer;
use rows_index::Entry;
use rows_leaves::{Leaves, Run};
use slee_value::NoMemory;
use std::alloc::Global;
use std::cmp::Ordering;

/// The timers of these entries, in their order.
pub fn timers_of(
    alloc: Global,
    rows: &Leaves<Timer>,
    entries: Run<'_, Entry>,
) -> Result<Vec<Timer>, NoMemory>
    ensures { IfOk result (λ list. list.items ≡ flat_map (timers_at rows.now.rows) entries.entry) }
{
    let mut list = Vec::new(alloc);
    for entry in entries {
        match rows.first_row_of(entry.number) {
            Some(timer) => list.push(*timer)?,
            None => {}
        }
    }
    Ok(list)
}

fn compare(one: &Timer, other: &Timer) -> Ordering
    ensures { is_lt result ≡ timer_before one.now other.now }
{
    one.number.0.cmp(&other.number.0)
}

/// Puts the timers in the order of their numbers.
pub fn put_by_number(list: &mut Vec<Timer>) -> Result<(), NoMemory>
    ensures { OnOk result (list.new.items ≡ sorted timer_before (reverse list.old.items)) }
{
    list.sort_by(|one, other| compare(one, other))?;
    Ok(())
}

/// The activity of each of the timers.
pub fn activities_of(alloc: Global, timers: &[Timer]) -> Result<Vec<u64>, NoMemory>
    ensures { IfOk result (λ list. list.items ≡ map (λ row. row.activity.0) timers.now) }
{
    let mut list = Vec::new(alloc);
    for timer in timers {
        list.push(timer.activity.0)?;
    }
    Ok(list)
}
