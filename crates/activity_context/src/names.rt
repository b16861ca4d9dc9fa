//! Names of the naming facility; clauses see them as a list in byte order, and as they are kept, with the room.
ghost use Rattle.std.specs.Prelude.{◌≡◌, ◌==◌, ◌+◌, ◌<◌, ◌≤◌, [], filter, length, map, Some, IfOk, IsTrue, OnOk, slice_get};
ghost use Rattle.std.specs.List.Sorted.{IsPermutation};
ghost use Rattle.rows_sorted.specs.Orders.{rises_by};
ghost use Rattle.router_state.specs.Contexts.{name_before, named_at, with_name, without_name, without_names_of};

use crate::filing::{cut_named, cut_names_of, file, row_named};
use crate::numbered::NumberedName;
use crate::own_names::names_of;
use router_state::Named;
use rows_index::Entry;
use rows_leaves::Leaves;
use slee_value::{ActivityId, NoMemory, Text};
use std::alloc::Global;
use std::marker::Model;

/// Names under the numbers of their texts, and these numbers under their activities.
#[derive(Drop)]
pub struct Names {
    rows: Leaves<NumberedName>,
    by_activity: Leaves<Entry>,
}

impl Model for Names {
    ghost use Rattle.activity_context.specs.Views.{NamesView};

    ghost Value = { NamesView };

    ghost use Rattle.activity_context.specs.Naming.{names_seen, AreFiled};

    ghost view = { names_seen };

    ghost invariant = { λ s. AreFiled s.rows.rows s.by_activity.rows };
}

impl Names {
    /// No names.
    pub fn new(alloc: Global) -> Self
        ensures { result.names ≡ [] }
    {
        Names {
            rows: Leaves::new(alloc),
            by_activity: Leaves::new(alloc),
        }
    }

    /// Passes on that the names rise, and that as many of them are kept.
    pub fn ordered(&self)
        ensures rises { IsTrue (rises_by name_before self.now.names) }
        ensures kept { IsPermutation self.now.names self.now.kept }
    {
        self.rows.rises();
    }

    /// How many names there are.
    pub fn len(&self) -> usize
        ensures { result ≡ length self.now.names }
    {
        self.rows.len()
    }

    /// The name that is kept at this place, with its activity.
    pub fn at(&self, place: usize) -> &Named
        requires { place < length self.now.names }
        ensures { slice_get self.now.kept place ≡ Some result.now }
    {
        &self.rows.at(place).named
    }

    /// Makes room for so many more names.
    pub fn reserve(&mut self, rows: u64) -> Result<(), NoMemory>
        ensures names { self.new.names ≡ self.old.names }
        ensures kept { self.new.kept ≡ self.old.kept }
        ensures room { OnOk result (rows ≤ self.new.room) }
        ensures grown { self.old.room ≤ self.new.room }
    {
        self.rows.reserve(rows as usize)?;
        self.by_activity.reserve(rows as usize)?;
        Ok(())
    }

    /// The activity for which a name stands.
    pub fn activity_named(&self, name: &Text) -> Option<ActivityId>
        ensures { result ≡ named_at self.now.names name.now }
    {
        match row_named(&self.rows, &self.by_activity, name) {
            Some(row) => Some(row.named.activity),
            None => None,
        }
    }

    /// The names that stand for the activity, in byte order. Only these are looked at.
    pub fn of(&self, alloc: Global, activity: ActivityId) -> Result<Vec<Text>, NoMemory>
        ensures { IfOk result (λ all. all.items ≡ map (λ row. row.name) (filter (λ row. row.activity.0 == activity.0) self.now.names)) }
    {
        names_of(alloc, &self.rows, &self.by_activity, activity)
    }

    /// The name stands for nothing.
    pub fn cut(&mut self, name: &Text)
        ensures names { self.new.names ≡ without_name self.old.names name.now }
        ensures room { self.old.room ≤ self.new.room }
    {
        cut_named(&mut self.rows, &mut self.by_activity, name);
    }

    /// The name stands for the activity, whatever it stood for.
    pub fn put(&mut self, name: Text, activity: ActivityId)
        requires { 0 < self.old.room }
        ensures names { self.new.names ≡ with_name self.old.names name activity.0 }
        ensures room { self.old.room ≤ self.new.room + 1 }
    {
        cut_named(&mut self.rows, &mut self.by_activity, &name);
        file(
            &mut self.rows,
            &mut self.by_activity,
            Named { name, activity },
        );
    }

    /// No names stand for the activity. Only its own are looked at.
    pub fn cut_of(&mut self, activity: ActivityId)
        ensures names { self.new.names ≡ without_names_of self.old.names activity.0 }
        ensures room { self.old.room ≤ self.new.room }
    {
        cut_names_of(&mut self.rows, &mut self.by_activity, activity);
    }
}
