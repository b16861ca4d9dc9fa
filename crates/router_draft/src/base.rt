//! The state with which a step begins: what is read of it, each by an exact question.
ghost use Rattle.std.specs.Prelude.{◌≡◌, IfOk, option_copied, option_map, slice_get};
ghost use Rattle.router_state.specs.State.{State};
ghost use Rattle.router_state.specs.Contexts.{is_linked, is_null, activities_of, activity_at, named_at};
ghost use Rattle.router_state.specs.Fields.{field_at};
ghost use Rattle.router_state.specs.Ordered.{IsOrdered};
ghost use Rattle.router_state.specs.Queues.{head_event, is_suspended, is_undelivered};
ghost use Rattle.router_state.specs.Trees.{entity_at, parent_of};
ghost use Rattle.router_draft.specs.After.{kids, waiting_on};
ghost use Rattle.router_draft.specs.Drafts.{AreTrees};

use slee_value::{ActivityId, EntityId, EventId, Name, NoMemory, Text, Value};
use std::alloc::Global;

/// A state that is read by its keys.
pub trait Base {
    ghost state: { Self → State };

    /// Passes on that every list rises, and that parents stand below their children.
    fn ordered(&self)
        ensures ordered { IsOrdered (state self.now) }
        ensures trees { AreTrees (state self.now) };

    /// The moment that the last clock line gave.
    fn clock(&self) -> u64
        ensures { result ≡ (state self.now).clock };

    /// How many lines were taken.
    fn inputs(&self) -> u64
        ensures { result ≡ (state self.now).inputs };

    /// The number of the next entity.
    fn next_entity(&self) -> u64
        ensures { result ≡ (state self.now).next_entity };

    /// The number of the next activity.
    fn next_activity(&self) -> u64
        ensures { result ≡ (state self.now).next_activity };

    /// The number of the next timer.
    fn next_timer(&self) -> u64
        ensures { result ≡ (state self.now).next_timer };

    /// The number of the next event.
    fn next_event(&self) -> u64
        ensures { result ≡ (state self.now).next_event };

    /// The number of an entity's block.
    fn block(&self, entity: EntityId) -> Option<u32>
        ensures { result ≡ option_map (λ row. row.block) (entity_at (state self.now).entities entity.0) };

    /// The parent of an entity, 0 for a root.
    fn parent(&self, entity: EntityId) -> Option<u64>
        ensures { result ≡ option_map (λ row. parent_of row) (entity_at (state self.now).entities entity.0) };

    /// The numbers of the children of an entity, rising; of 0, those of the roots.
    fn children(&self, alloc: Global, entity: EntityId) -> Result<Vec<u64>, NoMemory>
        ensures { IfOk result (λ all. all.items ≡ kids (state self.now).entities entity.0) };

    /// The value of an entity's field.
    fn field(&self, entity: EntityId, name: &Name) -> Option<&Value>
        ensures { option_copied result ≡ field_at (state self.now).fields entity.0 name.now };

    /// Whether the activity is a null activity, and whether it is Ending.
    fn activity(&self, activity: ActivityId) -> Option<(bool, bool)>
        ensures { result ≡ option_map (λ row. (is_null row.kind, row.ending)) (activity_at (state self.now).activities activity.0) };

    /// The activity for which a name stands.
    fn named(&self, name: &Text) -> Option<ActivityId>
        ensures { result ≡ named_at (state self.now).names name.now };

    /// Whether the entity is attached to the activity.
    fn is_linked(&self, entity: EntityId, activity: ActivityId) -> bool
        ensures { result ≡ is_linked (state self.now).links entity.0 activity.0 };

    /// The activities to which an entity is attached, rising.
    fn activities(&self, alloc: Global, entity: EntityId) -> Result<Vec<u64>, NoMemory>
        ensures { IfOk result (λ all. all.items ≡ activities_of (state self.now).links entity.0) };

    /// The number of the activity's head event.
    fn head(&self, activity: ActivityId) -> Option<EventId>
        ensures { result ≡ option_map (λ v. v.id) (head_event (state self.now).events activity.0) };

    /// The number of the event at this place of the activity's queue; the head event is at 0.
    fn waiting_at(&self, activity: ActivityId, place: u64) -> Option<EventId>
        ensures { option_map (λ e. e.0) result ≡ slice_get (waiting_on (state self.now).events activity.0) place };

    /// Whether no entity has received the activity's head event yet.
    fn is_undelivered(&self, activity: ActivityId) -> bool
        ensures { result ≡ is_undelivered (state self.now).delivered activity.0 };

    /// Whether the activity's head event is suspended.
    fn is_suspended(&self, activity: ActivityId) -> bool
        ensures { result ≡ is_suspended (state self.now).suspensions activity.0 };
}
