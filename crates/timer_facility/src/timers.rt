//! The timers, rising by number; clauses see them as a list, with the next number and the room.
ghost use Rattle.std.specs.Prelude.{◌≡◌, ◌+◌, ◌-◌, ◌<◌, ◌≤◌, ◌==◌, ◌^◌, ◌++◌, ◌∷◌, [], map, length, filter, nat_le, nat_lt, Some, IsTrue, OnOk, IfErr, IfOk, slice_get, option_copied};
ghost use Rattle.rows_sorted.specs.Orders.{rises_in, are_below, put};
ghost use Rattle.router_state.specs.Timers.{timer_at, with_timer, without_timer, without_timers_on, advanced, behind, due_count, goes_on};
ghost use Rattle.router_state.specs.Timing.{fired, fired_in_all, occurrence_limit};
ghost use Rattle.timer_facility.specs.Occurrences.{occurrence};
ghost use Rattle.timer_facility.specs.Faults.{IsFaultOf};
ghost use Rattle.timer_facility.specs.Views.{timer_before};

use crate::occurrences::{DueFault, DueList, OCCURRENCE_LIMIT};
use crate::timer_rows::TimerRows;
use router_state::{Timer, TimerSpec};
use slee_value::{ActivityId, NoMemory, TimerId};
use std::alloc::Global;
use std::marker::Model;

/// Timers, each with a number that is drawn once.
pub struct Timers {
    rows: TimerRows,
    next: u64,
}

impl Drop for Timers {
    fn drop(self) {
        let Self { rows: _, next: _ } = self;
    }
}

impl Model for Timers {
    ghost use Rattle.timer_facility.specs.Views.{TimersView};

    ghost Value = { TimersView };

    ghost use Rattle.timer_facility.specs.Kept.{seen, IsKept};

    ghost view = { seen };

    ghost invariant = { IsKept };
}

impl Timers {
    /// No timers.
    pub fn new(alloc: Global) -> Self
        ensures timers { result.timers ≡ [] }
        ensures next { result.next ≡ 1 }
    {
        Timers {
            rows: TimerRows::new(alloc),
            next: 1,
        }
    }

    /// Makes room for so many more timers.
    pub fn reserve(&mut self, timers: u64) -> Result<(), NoMemory>
        ensures timers { self.new.timers ≡ self.old.timers }
        ensures next { self.new.next ≡ self.old.next }
        ensures room { OnOk result (timers ≤ self.new.room) }
        ensures grown { self.old.room ≤ self.new.room }
    {
        self.rows.reserve(timers)
    }

    /// A new timer with the next number.
    pub fn set(&mut self, spec: TimerSpec) -> TimerId
        requires room { 0 < self.old.room }
        requires next { self.old.next < 2 ^ 64 - 1 }
        ensures number { result.0 ≡ self.old.next }
        ensures timers { self.new.timers ≡ with_timer self.old.timers self.old.next spec }
        ensures next { self.new.next ≡ self.old.next + 1 }
        ensures room { self.old.room ≤ self.new.room + 1 }
    {
        let number = TimerId(self.next);
        self.rows.add(Timer {
            number,
            activity: spec.activity,
            next: spec.start,
            period: spec.period,
            left: spec.times,
            keep: spec.keep,
        });
        self.next += 1;
        number
    }

    /// No timer has this number any more.
    pub fn cancel(&mut self, timer: TimerId)
        ensures timers { self.new.timers ≡ without_timer self.old.timers timer.0 }
        ensures next { self.new.next ≡ self.old.next }
        ensures room { self.old.room ≤ self.new.room }
    {
        self.rows.cut(timer);
    }

    /// No timer stands on the activity any more. Only its timers are looked at.
    pub fn cancel_all(&mut self, activity: ActivityId)
        ensures timers { self.new.timers ≡ without_timers_on self.old.timers activity.0 }
        ensures next { self.new.next ≡ self.old.next }
        ensures room { self.old.room ≤ self.new.room }
    {
        self.rows.cut_on(activity);
    }

    /// The occurrences that are fired as the clock comes to the moment, by moment and then by timer.
    pub fn due(&self, alloc: Global, to: u64) -> Result<DueList, DueFault>
        ensures list { IfOk result (λ list. map occurrence list.items ≡ fired to self.now.timers) }
        ensures few { OnOk result (fired_in_all to self.now.timers ≤ occurrence_limit) }
        ensures fault { IfErr result (λ fault. IsFaultOf (fired_in_all to self.now.timers) fault) }
    {
        let count = self.rows.count_of_fired(to);
        if count > OCCURRENCE_LIMIT {
            return Err(DueFault::TooMany { count });
        }
        match self.rows.list_of_fired(alloc, to) {
            Ok(list) => Ok(list),
            Err(_) => Err(DueFault::NoMemory),
        }
    }

    /// The due occurrences are used up, and a timer without an occurrence left is gone. Only the timers that are due are looked at.
    pub fn advance(&mut self, to: u64)
        ensures timers { self.new.timers ≡ advanced self.old.timers to }
        ensures next { self.new.next ≡ self.old.next }
        ensures room { self.old.room ≤ self.new.room }
    {
        self.rows.advance(to);
    }

    /// Puts a timer back with its number. Another one of this number gives way.
    pub fn restore(&mut self, timer: Timer)
        requires room { 0 < self.old.room }
        requires below { timer.number.0 < self.old.next }
        ensures timers { self.new.timers ≡ put timer_before timer self.old.timers }
        ensures next { self.new.next ≡ self.old.next }
        ensures room { self.old.room ≤ self.new.room + 1 }
    {
        self.rows.cut(timer.number);
        self.rows.add(timer);
    }

    /// The number that the next timer has.
    pub fn next_number(&self) -> u64
        ensures { result ≡ self.now.next }
    {
        self.next
    }

    /// The next timer has this number.
    pub fn set_next(&mut self, next: u64)
        requires { IsTrue (are_below (λ row. row.number.0) next self.old.timers) }
        ensures { self.new ≡ record self.old { next = next } }
    {
        self.next = next;
    }

    /// How many timers there are.
    pub fn len(&self) -> u64
        ensures length { result ≡ length self.now.timers }
        ensures rises { IsTrue (rises_in (λ row. row.number.0) self.now.timers) }
        ensures below { IsTrue (are_below (λ row. row.number.0) self.now.next self.now.timers) }
    {
        let _next = self.next;
        self.rows.len() as u64
    }

    /// The timer at this place; they rise by number.
    pub fn at(&self, place: u64) -> &Timer
        requires { place < length self.now.timers }
        ensures { slice_get self.now.timers place ≡ Some result.now }
    {
        self.rows.at(place as usize)
    }

    /// The timer of this number.
    pub fn find(&self, timer: TimerId) -> Option<&Timer>
        ensures { option_copied result ≡ timer_at self.now.timers timer.0 }
    {
        self.rows.find(timer)
    }

    /// The timers on the activity, rising by number. Only these are looked at.
    pub fn on_activity(&self, alloc: Global, activity: ActivityId) -> Result<Vec<Timer>, NoMemory>
        ensures { IfOk result (λ all. all.items ≡ filter (λ row. row.activity.0 == activity.0) self.now.timers) }
    {
        self.rows.on_activity(alloc, activity)
    }

    /// The activities of the timers that are due at the moment, rising by timer. Only timers that are due are looked at.
    pub fn activities_due(&self, alloc: Global, to: u64) -> Result<Vec<u64>, NoMemory>
        ensures { IfOk result (λ all. all.items ≡ map (λ row. row.activity.0) (filter (λ row. nat_le row.next to) self.now.timers)) }
    {
        self.rows.activities_due(alloc, to)
    }
}
