//! A step while it is planned. Contracts see its changes and its lines.
ghost use Rattle.std.specs.Prelude.{◌≡◌, ◌++◌, ◌∷◌, [], ◌<◌, ◌^◌, OnOk, count_by, length};
ghost use Rattle.std.specs.List.{list_any};
ghost use Rattle.router_draft.specs.After.{draws};
ghost use Rattle.router_draft.specs.Touched.{drops, ends, touches};
ghost use Rattle.router_draft.specs.declared.after.Drawn.TheVariants as kinds;

use crate::changes::Changes;
use router_state::Change;
use slee_value::{ActivityId, EntityId, NoMemory, Text};
use std::alloc::Global;
use std::marker::Model;
use trace_history::Lines;

/// The changes and the lines of a step, as far as it is planned.
#[derive(Drop)]
pub struct Draft {
    changes: Changes,
    lines: Lines,
}

impl Model for Draft {
    ghost use Rattle.router_draft.specs.Drafts.{DraftView};

    ghost Value = { DraftView };

    ghost view = { λ d. record { changes = d.changes; lines = d.lines } };
}

impl Draft {
    /// Nothing is planned yet.
    pub fn new(alloc: Global) -> Self
        ensures changes { result.changes ≡ [] }
        ensures lines { result.lines ≡ [] }
    {
        Draft {
            changes: Changes::new(alloc),
            lines: Lines::new(alloc),
        }
    }

    /// A change more.
    pub(crate) fn change(&mut self, change: Change) -> Result<(), NoMemory>
        ensures changes { OnOk result (self.new.changes ≡ self.old.changes ++ change ∷ []) }
        ensures lines { OnOk result (self.new.lines ≡ self.old.lines) }
    {
        self.changes.push(change)?;
        Ok(())
    }

    /// A line more.
    pub fn tell(&mut self, line: &Text) -> Result<(), NoMemory>
        ensures changes { OnOk result (self.new.changes ≡ self.old.changes) }
        ensures lines { OnOk result (self.new.lines ≡ self.old.lines ++ line.now ∷ []) }
    {
        self.lines.push(line)?;
        Ok(())
    }

    /// The changes so far.
    pub fn changes(&self) -> &[Change]
        ensures changes { result.now ≡ self.now.changes }
        ensures few { length self.now.changes < 2 ^ 63 }
    {
        self.changes.as_slice()
    }

    /// Whether a change so far touches the entity: its fields, its attachments, its place or its children.
    pub(crate) fn touches(&self, entity: EntityId) -> bool
        ensures { result ≡ list_any (touches entity.0) self.now.changes }
    {
        self.changes.touches(entity)
    }

    /// Whether the activity ends or goes by a change so far.
    pub(crate) fn ends(&self, activity: ActivityId) -> bool
        ensures { result ≡ list_any (ends activity.0) self.now.changes }
    {
        self.changes.ends(activity)
    }

    /// Whether the activity goes by a change so far.
    pub(crate) fn drops(&self, activity: ActivityId) -> bool
        ensures { result ≡ list_any (drops activity.0) self.now.changes }
    {
        self.changes.drops(activity)
    }

    /// How many events the changes so far number.
    pub(crate) fn events(&self) -> usize
        ensures number { result ≡ count_by (draws kinds.Event) self.now.changes }
        ensures few { result < 2 ^ 63 }
    {
        self.changes.events()
    }

    /// The changes and the lines.
    pub fn into_parts(self) -> (Vec<Change>, Lines)
        ensures changes { result.0.items ≡ self.changes }
        ensures lines { result.1 ≡ self.lines }
    {
        (self.changes.into_vec(), self.lines)
    }
}
