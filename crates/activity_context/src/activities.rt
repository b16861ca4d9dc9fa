//! Activities that rise by number, of which an external one is found by its name; clauses see them as a list, with the room.
ghost use Rattle.std.specs.Prelude.{ℕ, ◌≡◌, ◌+◌, ◌<◌, ◌≤◌, [], length, None, Some, IsTrue, OnOk, slice_get, option_copied};
ghost use Rattle.rows_sorted.specs.Orders.{put, are_below, rises_in};
ghost use Rattle.router_state.specs.Contexts.{activity_at, external, with_activity, with_end, without_activity};
ghost use Rattle.activity_context.specs.Faults.{start_fault, active_fault};
ghost use Rattle.activity_context.specs.Views.{activity_before};

use crate::AcFault;
use crate::externals::{external_among, name_entry, name_number};
use router_state::{AcKind, Activity};
use rows_index::{Entry, number_of};
use rows_leaves::Leaves;
use slee_value::{ActivityId, Name, NoMemory};
use std::alloc::Global;
use std::marker::Model;

/// Activities by number, with their numbers by the number of their name.
#[derive(Drop)]
pub struct Activities {
    rows: Leaves<Activity>,
    by_name: Leaves<Entry>,
}

impl Model for Activities {
    ghost use Rattle.activity_context.specs.Views.{ActivitiesView};

    ghost Value = { ActivitiesView };

    ghost use Rattle.activity_context.specs.Indexed.{rows_seen, AreIndexed};

    ghost view = { rows_seen };

    ghost invariant = { AreIndexed };
}

impl Activities {
    /// No activities.
    pub fn new(alloc: Global) -> Self
        ensures { result.activities ≡ [] }
    {
        Activities {
            rows: Leaves::new(alloc),
            by_name: Leaves::new(alloc),
        }
    }

    /// Passes on that the activities rise.
    pub fn ordered(&self)
        ensures { IsTrue (rises_in (λ row. row.number.0) self.now.activities) }
    {
        self.rows.rises();
    }

    /// How many activities there are.
    pub fn len(&self) -> usize
        ensures { result ≡ length self.now.activities }
    {
        self.rows.len()
    }

    /// The activity at this place.
    pub fn at(&self, place: usize) -> &Activity
        requires { place < length self.now.activities }
        ensures { slice_get self.now.activities place ≡ Some result.now }
    {
        self.rows.at(place)
    }

    /// Makes room for so many more activities.
    pub fn reserve(&mut self, rows: u64) -> Result<(), NoMemory>
        ensures activities { self.new.activities ≡ self.old.activities }
        ensures room { OnOk result (rows ≤ self.new.room) }
        ensures grown { self.old.room ≤ self.new.room }
    {
        self.rows.reserve(rows as usize)?;
        self.by_name.reserve(rows as usize)?;
        Ok(())
    }

    /// The activity of this number.
    pub fn find(&self, activity: ActivityId) -> Option<&Activity>
        ensures { option_copied result ≡ activity_at self.now.activities activity.0 }
    {
        self.rows.first_row_of(activity.0)
    }

    /// The external activity of this name.
    pub fn external(&self, name: &Name) -> Option<&Activity>
        ensures { option_copied result ≡ external self.now.activities name.now }
    {
        let run = self.by_name.rows_of(number_of(name.as_bytes()));
        external_among(&self.rows, run, name)
    }

    /// Why no activity of this kind can start, if none can.
    pub fn fault_of_start(&self, kind: &AcKind) -> Option<AcFault>
        ensures { result ≡ start_fault self.now.activities kind.now }
    {
        match kind {
            AcKind::External(name) => {
                if self.external(name).is_some() {
                    Some(AcFault::Exists)
                } else {
                    None
                }
            }
            _ => None,
        }
    }

    /// Why the activity can't be used, if it can't.
    pub fn fault_of_use(&self, activity: ActivityId) -> Option<AcFault>
        ensures { result ≡ active_fault self.now.activities activity.0 }
    {
        match self.find(activity) {
            Some(row) => {
                if row.ending {
                    Some(AcFault::Ending)
                } else {
                    None
                }
            }
            None => Some(AcFault::Unknown),
        }
    }

    /// A new activity goes behind the others.
    pub fn push(&mut self, number: u64, kind: AcKind)
        requires below { IsTrue (are_below (λ row. row.number.0) number self.old.activities) }
        requires room { 0 < self.old.room }
        ensures activities { self.new.activities ≡ with_activity self.old.activities number kind }
        ensures below { IsTrue (are_below (λ row. row.number.0) (number + 1) self.new.activities) }
        ensures room { self.old.room ≤ self.new.room + 1 }
    {
        let activity = Activity {
            number: ActivityId(number),
            kind,
            ending: false,
        };
        self.by_name.put_row(name_entry(&activity));
        self.rows.put_row(activity);
    }

    fn add(&mut self, activity: Activity)
        requires room { 0 < self.old.room }
        requires absent { activity_at self.old.activities activity.number.0 ≡ None }
        ensures activities { self.new.activities ≡ put activity_before activity self.old.activities }
        ensures room { self.old.room ≤ self.new.room + 1 }
    {
        self.by_name.put_row(name_entry(&activity));
        self.rows.put_row(activity);
    }

    /// The activity stands in its place. Another one of its number gives way.
    pub fn put(&mut self, activity: Activity)
        requires room { 0 < self.old.room }
        ensures activities { self.new.activities ≡ put activity_before activity self.old.activities }
        ensures below { (n : ℕ) → activity.number.0 < n → IsTrue (are_below (λ row. row.number.0) n self.old.activities) → IsTrue (are_below (λ row. row.number.0) n self.new.activities) }
        ensures room { self.old.room ≤ self.new.room + 1 }
    {
        self.cut(activity.number);
        self.add(activity);
    }

    /// The activity is gone.
    pub fn cut(&mut self, activity: ActivityId)
        ensures activities { self.new.activities ≡ without_activity self.old.activities activity.0 }
        ensures below { (n : ℕ) → IsTrue (are_below (λ row. row.number.0) n self.old.activities) → IsTrue (are_below (λ row. row.number.0) n self.new.activities) }
        ensures room { self.old.room ≤ self.new.room }
    {
        match self.rows.first_row_of(activity.0) {
            Some(row) => {
                let name = name_number(&row.kind);
                self.by_name.cut_row(name, activity.0, &[]);
                self.rows.cut_rows_of(activity.0);
            }
            None => {}
        }
    }

    /// The activity is Ending.
    pub fn end(&mut self, activity: ActivityId)
        ensures activities { self.new.activities ≡ with_end self.old.activities activity.0 }
        ensures below { (n : ℕ) → IsTrue (are_below (λ row. row.number.0) n self.old.activities) → IsTrue (are_below (λ row. row.number.0) n self.new.activities) }
        ensures room { self.old.room ≤ self.new.room }
    {
        self.rows
            .change_row(activity.0, 0, &[], |row| row.ending = true);
    }
}
