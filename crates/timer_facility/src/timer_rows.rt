//! Timers that rise by number, of which those that are due and those on an activity are found by halving; clauses see them as a list, with the room.
ghost use Rattle.std.specs.Prelude.{◌≡◌, ◌+◌, ◌<◌, ◌≤◌, ◌==◌, false, [], Some, None, length, filter, map, nat_le, slice_get, IsTrue, OnOk, IfOk, MatchOption, option_copied};
ghost use Rattle.std.specs.List.{list_any};
ghost use Rattle.std.specs.Option.{option_map_or};
ghost use Rattle.rows_sorted.specs.Orders.{rises_in, put};
ghost use Rattle.router_state.specs.Timers.{timer_at, without_timer, without_timers_on, advanced, due_count, goes_on};
ghost use Rattle.router_state.specs.Timing.{fired, fired_in_all};
ghost use Rattle.timer_facility.specs.Indexed.{is_left, moved_on, used_up, IsNext};
ghost use Rattle.timer_facility.specs.Occurrences.{occurrence};
ghost use Rattle.timer_facility.specs.Views.{timer_before};

use crate::entries::{activity_entry, first_behind, moment_entry};
use crate::occurrences::{self, DueList};
use crate::{due, listing};
use router_state::Timer;
use rows_index::{Entry, move_entry};
use rows_leaves::Leaves;
use slee_value::{ActivityId, NoMemory, TimerId};
use std::alloc::Global;
use std::marker::Model;

/// Timers by number, with their numbers by the next moment and by activity.
#[derive(Drop)]
pub struct TimerRows {
    rows: Leaves<Timer>,
    by_moment: Leaves<Entry>,
    by_activity: Leaves<Entry>,
}

impl Model for TimerRows {
    ghost use Rattle.timer_facility.specs.Views.{TimerRowsView};

    ghost Value = { TimerRowsView };

    ghost use Rattle.timer_facility.specs.Indexed.{rows_seen, AreIndexed};

    ghost view = { rows_seen };

    ghost invariant = { AreIndexed };
}

impl TimerRows {
    /// No timers.
    pub fn new(alloc: Global) -> Self
        ensures { result.timers ≡ [] }
    {
        TimerRows {
            rows: Leaves::new(alloc),
            by_moment: Leaves::new(alloc),
            by_activity: Leaves::new(alloc),
        }
    }

    /// How many timers there are.
    pub fn len(&self) -> usize
        ensures length { result ≡ length self.now.timers }
        ensures rises { IsTrue (rises_in (λ row. row.number.0) self.now.timers) }
    {
        self.rows.rises();
        self.rows.len()
    }

    /// The timer at this place; they rise by number.
    pub fn at(&self, place: usize) -> &Timer
        requires { place < length self.now.timers }
        ensures { slice_get self.now.timers place ≡ Some result.now }
    {
        self.rows.at(place)
    }

    /// The timer of this number.
    pub fn find(&self, timer: TimerId) -> Option<&Timer>
        ensures { option_copied result ≡ timer_at self.now.timers timer.0 }
    {
        self.rows.first_row_of(timer.0)
    }

    /// Makes room for so many more timers.
    pub fn reserve(&mut self, timers: u64) -> Result<(), NoMemory>
        ensures timers { self.new.timers ≡ self.old.timers }
        ensures room { OnOk result (timers ≤ self.new.room) }
        ensures grown { self.old.room ≤ self.new.room }
    {
        self.rows.reserve(timers as usize)?;
        self.by_moment.reserve(timers as usize)?;
        self.by_activity.reserve(timers as usize)?;
        Ok(())
    }

    /// The timer stands in its place.
    pub fn add(&mut self, timer: Timer)
        requires room { 0 < self.old.room }
        requires absent { timer_at self.old.timers timer.number.0 ≡ None }
        ensures timers { self.new.timers ≡ put timer_before timer self.old.timers }
        ensures room { self.old.room ≤ self.new.room + 1 }
    {
        self.by_moment.put_row(moment_entry(&timer));
        self.by_activity.put_row(activity_entry(&timer));
        self.rows.put_row(timer);
    }

    /// No timer has this number any more.
    pub fn cut(&mut self, timer: TimerId)
        ensures timers { self.new.timers ≡ without_timer self.old.timers timer.0 }
        ensures room { self.old.room ≤ self.new.room }
    {
        match self.rows.first_row_of(timer.0) {
            Some(row) => {
                let next = row.next;
                let activity = row.activity;
                self.by_moment.cut_row(next, timer.0, &[]);
                self.by_activity.cut_row(activity.0, timer.0, &[]);
                self.rows.cut_row(timer.0, 0, &[]);
            }
            None => {}
        }
    }

    fn first_on(&self, activity: ActivityId) -> Option<TimerId>
        ensures first { MatchOption result (list_any (λ t. t.activity.0 == activity.0) self.now.timers ≡ false) (λ timer. IsTrue (option_map_or (λ t. t.activity.0 == activity.0) (timer_at self.now.timers timer.0) false)) }
        ensures rises { IsTrue (rises_in (λ row. row.number.0) self.now.timers) }
    {
        match self.by_activity.first_row_of(activity.0) {
            Some(entry) => Some(TimerId(entry.number)),
            None => None,
        }
    }

    /// No timer stands on the activity any more.
    pub fn cut_on(&mut self, activity: ActivityId)
        ensures timers { self.new.timers ≡ without_timers_on self.old.timers activity.0 }
        ensures room { self.old.room ≤ self.new.room }
    {
        'timers: while let Some(timer) = self.first_on(activity) {
            self.cut(timer);
        }
    }

    /// The first entry behind this one, if its timer is due.
    fn next_due(&self, entry: Option<Entry>, to: u64) -> Option<Entry>
        ensures next { MatchOption result (list_any (is_left entry to) self.now.timers ≡ false) (λ next. IsNext entry to self.now.timers next) }
        ensures rises { IsTrue (rises_in (λ row. row.number.0) self.now.timers) }
    {
        match first_behind(&self.by_moment, entry) {
            Some(next) => { if next.key <= to { Some(*next) } else { None } }
            None => None,
        }
    }

    /// The timer is behind its due occurrences.
    fn move_on(&mut self, timer: Timer, to: u64)
        requires at { timer_at self.old.timers timer.number.0 ≡ Some timer }
        requires goes { IsTrue (goes_on timer (due_count timer to)) }
        ensures timers { self.new.timers ≡ map (moved_on timer.number.0 to) self.old.timers }
        ensures room { self.old.room ≤ self.new.room }
    {
        let mut moved = timer;
        due::use_up(&mut moved, to);
        move_entry(&mut self.by_moment, moment_entry(&timer), moved.next);
        self.rows.put_row(moved);
    }

    /// The timer's due occurrences are used up, and it is gone if none is left.
    fn use_up(&mut self, timer: TimerId, to: u64)
        ensures timers { self.new.timers ≡ used_up timer.0 to self.old.timers }
        ensures room { self.old.room ≤ self.new.room }
    {
        match self.rows.first_row_of(timer.0) {
            Some(row) => {
                let row = *row;
                if due::goes_on(&row, to) {
                    self.move_on(row, to);
                } else {
                    self.cut(timer);
                }
            }
            None => {}
        }
    }

    /// The due occurrences are used up, and a timer without an occurrence left is gone. A timer whose next moment stays the
    /// same is met once, since the walk goes on behind its entry.
    pub fn advance(&mut self, to: u64)
        ensures timers { self.new.timers ≡ advanced self.old.timers to }
        ensures room { self.old.room ≤ self.new.room }
    {
        let mut last = None;
        'due: while let Some(entry) = self.next_due(last, to) {
            self.use_up(TimerId(entry.number), to);
            last = Some(entry);
        }
    }

    /// How many occurrences are fired as the clock comes to the moment.
    pub fn count_of_fired(&self, to: u64) -> u128
        ensures { result ≡ fired_in_all to self.now.timers }
    {
        let _most = self.by_moment.len();
        let run = self.by_moment.rows_up_to(to);
        occurrences::count_of_all(&self.rows, run, to)
    }

    /// The occurrences that are fired as the clock comes to the moment.
    pub fn list_of_fired(&self, alloc: Global, to: u64) -> Result<DueList, NoMemory>
        ensures { IfOk result (λ list. map occurrence list.items ≡ fired to self.now.timers) }
    {
        let run = self.by_moment.rows_up_to(to);
        occurrences::list_of_all(alloc, &self.rows, run, to)
    }

    /// The timers on the activity, rising by number.
    pub fn on_activity(&self, alloc: Global, activity: ActivityId) -> Result<Vec<Timer>, NoMemory>
        ensures { IfOk result (λ all. all.items ≡ filter (λ row. row.activity.0 == activity.0) self.now.timers) }
    {
        listing::timers_of(alloc, &self.rows, self.by_activity.rows_of(activity.0))
    }

    /// The activities of the timers that are due at the moment, rising by timer.
    pub fn activities_due(&self, alloc: Global, to: u64) -> Result<Vec<u64>, NoMemory>
        ensures { IfOk result (λ all. all.items ≡ map (λ row. row.activity.0) (filter (λ row. nat_le row.next to) self.now.timers)) }
    {
        let mut due = listing::timers_of(alloc, &self.rows, self.by_moment.rows_up_to(to))?;
        listing::put_by_number(&mut due)?;
        listing::activities_of(alloc, due.as_slice())
    }
}
