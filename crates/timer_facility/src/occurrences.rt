//! The occurrences that are fired as the clock comes to a moment: their number, and their list.
ghost use Rattle.std.specs.Prelude.{◌≡◌, ◌++◌, ◌<◌, ◌≤◌, ◌^◌, length, map, sum, OnOk, IfOk};
ghost use Rattle.std.specs.Ordering.{is_lt};
ghost use Rattle.std.specs.List.{flat_map};
ghost use Rattle.rows_sorted.specs.Orders.{sorted};
ghost use Rattle.router_state.specs.Timing.{fired_of, occurrence_before};
ghost use Rattle.timer_facility.specs.Indexed.{fired_at, fired_count_at};
ghost use Rattle.timer_facility.specs.Occurrences.{occurrence, due_before};

use crate::due;
use router_state::Timer;
use rows_index::Entry;
use rows_leaves::{Leaves, Run};
use slee_value::{ActivityId, NoMemory, TimerId};
use std::alloc::Global;
use std::cmp::Ordering;

/// How many occurrences are fired at once.
pub const OCCURRENCE_LIMIT: u128 = 10_000;

/// An occurrence that is fired: its moment, its timer, and that timer's activity.
#[derive(Debug, Clone, Copy, PartialEq, Eq)]
pub struct Due {
    pub moment: u64,
    pub timer: TimerId,
    pub activity: ActivityId,
}

/// The occurrences that are fired, by moment and then by timer.
pub type DueList = Vec<Due>;

/// Why there is no list of occurrences.
#[derive(Debug, Clone, Copy, PartialEq, Eq)]
pub enum DueFault {
    /// There would be this many.
    TooMany { count: u128 },
    /// Memory ran out.
    NoMemory,
}

fn count_at(rows: &Leaves<Timer>, entry: &Entry, to: u64) -> u128
    ensures count { result ≡ fired_count_at rows.now.rows to entry.now }
    ensures bound { result ≤ 2 ^ 64 }
{
    match rows.first_row_of(entry.number) {
        Some(timer) => due::count_of_fired(timer, to),
        None => 0,
    }
}

/// How many occurrences of the timers of these entries are fired as the clock comes to the moment.
pub fn count_of_all(rows: &Leaves<Timer>, entries: Run<'_, Entry>, to: u64) -> u128
    requires { length entries < 2 ^ 64 }
    ensures { result ≡ sum (map (fired_count_at rows.now.rows to) entries.entry) }
{
    let mut count = 0;
    for entry in entries {
        count += count_at(rows, entry, to);
    }
    count
}

fn compare(one: &Due, other: &Due) -> Ordering
    ensures { is_lt result ≡ due_before one.now other.now }
{
    one.moment
        .cmp(&other.moment)
        .then(one.timer.0.cmp(&other.timer.0))
}

/// Adds the timer's occurrences that are fired.
fn add_occurrences(list: &mut DueList, timer: &Timer, to: u64) -> Result<(), NoMemory>
    ensures { OnOk result (map occurrence list.new.items ≡ map occurrence list.old.items ++ fired_of to timer.now) }
{
    let count = due::count_of_due(timer, to);
    let missed = count - due::count_of_fired(timer, to);
    for place in missed..count {
        list.push(Due {
            moment: due::moment_of(timer, place, to),
            timer: timer.number,
            activity: timer.activity,
        })?;
    }
    Ok(())
}

/// Adds the occurrences that are fired of the timer of this entry.
fn add_at(list: &mut DueList, rows: &Leaves<Timer>, entry: &Entry, to: u64) -> Result<(), NoMemory>
    ensures { OnOk result (map occurrence list.new.items ≡ map occurrence list.old.items ++ fired_at rows.now.rows to entry.now) }
{
    match rows.first_row_of(entry.number) {
        Some(timer) => add_occurrences(list, timer, to),
        None => Ok(()),
    }
}

fn gather(
    alloc: Global,
    rows: &Leaves<Timer>,
    entries: Run<'_, Entry>,
    to: u64,
) -> Result<DueList, NoMemory>
    ensures { IfOk result (λ list. map occurrence list.items ≡ flat_map (fired_at rows.now.rows to) entries.entry) }
{
    let mut list = Vec::new(alloc);
    for entry in entries {
        add_at(&mut list, rows, entry, to)?;
    }
    Ok(list)
}

/// Puts the list in order. Of two that are alike the later one goes first, so the list is turned round before a stable sort.
fn put_in_order(list: &mut DueList) -> Result<(), NoMemory>
    ensures { OnOk result (list.new.items ≡ sorted due_before list.old.items) }
{
    list.reverse();
    list.sort_by(|one, other| compare(one, other))?;
    Ok(())
}

/// The occurrences of the timers of these entries that are fired as the clock comes to the moment.
pub fn list_of_all(
    alloc: Global,
    rows: &Leaves<Timer>,
    entries: Run<'_, Entry>,
    to: u64,
) -> Result<DueList, NoMemory>
    ensures { IfOk result (λ list. map occurrence list.items ≡ sorted occurrence_before (flat_map (fired_at rows.now.rows to) entries.entry)) }
{
    let mut list = gather(alloc, rows, entries, to)?;
    put_in_order(&mut list)?;
    Ok(list)
}
