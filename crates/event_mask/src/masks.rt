//! The store of event masks. Contracts see it as the list of all masks in order, and the number of masks that can be added without memory.
ghost use Rattle.std.specs.Prelude.{◌≡◌, ◌+◌, ◌≤◌, ◌<◌, ◌||◌, [], Some, not, nat_lt, length, slice_get, filter, IsTrue, OnOk};
ghost use Rattle.router_state.specs.Masks.{is_mask_of, is_masked, mask_before, with_mask, with_mask_set, with_masks, without_masks};
ghost use Rattle.rows_sorted.specs.Orders.{rises_by};

use router_state::Mask;
use rows_leaves::{Leaves, Run};
use slee_value::{ActivityId, EntityId, NoMemory, Text};
use std::alloc::Global;
use std::marker::Model;

/// The masks of all attachments.
pub struct Masks {
    rows: Leaves<Mask>,
}

impl Drop for Masks {
    fn drop(self) {
        let Self { rows: _ } = self;
    }
}

impl Model for Masks {
    ghost use Rattle.event_mask.specs.Views.{MasksView};

    ghost Value = { MasksView };

    ghost view = { λ t. record { rows = t.rows.rows; room = t.rows.room } };
}

/// These events are masked too for the entity on the activity.
fn mask_each(rows: &mut Leaves<Mask>, entity: EntityId, activity: ActivityId, events: Vec<Text>)
    requires { length events.items ≤ rows.old.room }
    ensures rows { rows.new.rows ≡ with_masks rows.old.rows entity.0 activity.0 events.items }
    ensures room { rows.old.room ≤ rows.new.room + length events.items }
{
    'each: for event in events {
        rows.put_row(Mask {
            entity,
            activity,
            event,
        });
    }
}

impl Masks {
    /// No masks.
    pub fn new(alloc: Global) -> Self
        ensures { result.rows ≡ [] }
    {
        Masks {
            rows: Leaves::new(alloc),
        }
    }

    /// Makes room for this many new masks.
    pub fn reserve(&mut self, masks: u64) -> Result<(), NoMemory>
        ensures kept { self.new.rows ≡ self.old.rows }
        ensures room { OnOk result (masks ≤ self.new.room) }
        ensures grown { self.old.room ≤ self.new.room }
    {
        self.rows.reserve(masks as usize)?;
        Ok(())
    }

    /// Whether the event is masked for the entity on the activity.
    #[tactic(auto, using(crate::proofs::MaskLemmas::any_mask))]
    pub fn is_masked(&self, entity: EntityId, activity: ActivityId, event: &Text) -> bool
        ensures { result ≡ is_masked self.now.rows entity.0 activity.0 event.now }
    {
        self.rows.has_row(activity.0, entity.0, event.as_bytes())
    }

    /// The masks of the entity on the activity, rising by event.
    #[tactic(auto, using(crate::proofs::MaskLemmas::masks_shared))]
    pub fn of(&self, entity: EntityId, activity: ActivityId) -> Run<'_, Mask>
        ensures { result ≡ filter (is_mask_of entity.0 activity.0) self.now.rows }
    {
        self.rows.rows_of_pair(activity.0, entity.0)
    }

    /// These events are masked for the entity on the activity, and no others.
    pub fn on_attach(&mut self, entity: EntityId, activity: ActivityId, events: Vec<Text>)
        requires room { length events.items ≤ self.old.room }
        ensures rows { self.new.rows ≡ with_masks (without_masks self.old.rows entity.0 activity.0) entity.0 activity.0 events.items }
        ensures room { self.old.room ≤ self.new.room + length events.items }
    {
        self.forget(entity, activity);
        mask_each(&mut self.rows, entity, activity, events);
    }

    /// The event is masked for the entity on the activity, or it isn't. A new mask stands in the room that was made.
    #[tactic(auto, using(crate::proofs::MaskLemmas::mask_cut))]
    pub fn set(&mut self, entity: EntityId, activity: ActivityId, event: Text, on: bool)
        requires room { IsTrue (not on || (is_masked self.old.rows entity.0 activity.0 event || nat_lt 0 self.old.room)) }
        ensures rows { self.new.rows ≡ with_mask_set self.old.rows entity.0 activity.0 event on }
        ensures room { self.old.room ≤ self.new.room + 1 }
    {
        if on {
            self.rows.put_row(Mask {
                entity,
                activity,
                event,
            });
        } else {
            self.rows.cut_row(activity.0, entity.0, event.as_bytes());
        }
    }

    /// Puts a mask of a snapshot back.
    pub fn restore(&mut self, item: Mask)
        requires { 0 < self.old.room }
        ensures rows { self.new.rows ≡ with_mask self.old.rows item.entity.0 item.activity.0 item.event }
        ensures room { self.old.room ≤ self.new.room + 1 }
    {
        self.rows.put_row(item);
    }

    /// The entity has no masks on the activity.
    #[tactic(auto, using(crate::proofs::MaskLemmas::masks_cut))]
    pub fn forget(&mut self, entity: EntityId, activity: ActivityId)
        ensures rows { self.new.rows ≡ without_masks self.old.rows entity.0 activity.0 }
        ensures room { self.old.room ≤ self.new.room }
    {
        self.rows.cut_rows_of_pair(activity.0, entity.0);
    }

    /// How many masks there are.
    pub fn len(&self) -> u64
        ensures length { result ≡ length self.now.rows }
        ensures order { IsTrue (rises_by mask_before self.now.rows) }
    {
        self.rows.rises();
        self.rows.len() as u64
    }

    /// The mask at this place, counted from 0.
    pub fn at(&self, place: u64) -> &Mask
        requires { place < length self.now.rows }
        ensures mask { slice_get self.now.rows place ≡ Some result.now }
        ensures order { IsTrue (rises_by mask_before self.now.rows) }
    {
        self.rows.rises();
        self.rows.at(place as usize)
    }
}
