//! What is read of the state with the changes so far laid over it.
ghost use Rattle.std.specs.Prelude.{◌≡◌, ◌<◌, ◌+◌, ◌-◌, IsTrue, IfOk, option_copied, option_map, take};
ghost use Rattle.router_state.specs.Fits.{has_next};
ghost use Rattle.router_state.specs.Contexts.{activities_of, activity_at, is_linked, is_null, named_at};
ghost use Rattle.router_state.specs.Fields.{field_at};
ghost use Rattle.router_state.specs.Queues.{head_event, is_suspended, is_undelivered};
ghost use Rattle.router_state.specs.Trees.{entity_at, parent_of};
ghost use Rattle.router_draft.specs.After.{kids, waiting_on};
ghost use Rattle.router_draft.specs.Drafts.{laid, IsLow};

use crate::after::{self, Drawn};
use crate::{Base, Draft, lists};
use slee_value::{ActivityId, EntityId, EventId, Name, NoMemory, Text, TimerId, Value};
use std::alloc::Global;

/// Whether the entity is attached to the activity.
#[tactic(auto, using(crate::proofs::LinkLemmas::linked_laid, crate::proofs::TouchLemmas::linked_still))]
pub fn is_linked<B: Base>(base: &B, draft: &Draft, entity: EntityId, activity: ActivityId) -> bool
    ensures { result ≡ is_linked (laid (B.state base.now) draft.now).links entity.0 activity.0 }
{
    let was = base.is_linked(entity, activity);
    if !draft.touches(entity) {
        return was && !draft.drops(activity);
    }
    after::linked_through(draft.changes(), entity, activity, was)
}

/// The number of the next entity.
#[tactic(auto, using(crate::proofs::NextLemmas::entity_laid, crate::proofs::NextLemmas::goes_on))]
pub fn next_entity<B: Base>(base: &B, draft: &Draft) -> EntityId
    requires { IsLow (B.state base.now) }
    ensures number { result.0 ≡ (laid (B.state base.now) draft.now).next_entity }
    ensures more { IsTrue (has_next (laid (B.state base.now) draft.now).next_entity) }
{
    EntityId(base.next_entity() + after::count_drawn(draft.changes(), Drawn::Entity) as u64)
}

/// The number of the next activity.
#[tactic(auto, using(crate::proofs::NextLemmas::activity_laid, crate::proofs::NextLemmas::goes_on))]
pub fn next_activity<B: Base>(base: &B, draft: &Draft) -> ActivityId
    requires { IsLow (B.state base.now) }
    ensures number { result.0 ≡ (laid (B.state base.now) draft.now).next_activity }
    ensures more { IsTrue (has_next (laid (B.state base.now) draft.now).next_activity) }
{
    ActivityId(base.next_activity() + after::count_drawn(draft.changes(), Drawn::Activity) as u64)
}

/// The number of the next timer.
#[tactic(auto, using(crate::proofs::NextLemmas::timer_laid, crate::proofs::NextLemmas::goes_on))]
pub fn next_timer<B: Base>(base: &B, draft: &Draft) -> TimerId
    requires { IsLow (B.state base.now) }
    ensures number { result.0 ≡ (laid (B.state base.now) draft.now).next_timer }
    ensures more { IsTrue (has_next (laid (B.state base.now) draft.now).next_timer) }
{
    TimerId(base.next_timer() + after::count_drawn(draft.changes(), Drawn::Timer) as u64)
}

/// The number of the next event.
#[tactic(auto, using(crate::proofs::NextLemmas::event_laid, crate::proofs::NextLemmas::goes_on))]
pub fn next_event<B: Base>(base: &B, draft: &Draft) -> EventId
    requires { IsLow (B.state base.now) }
    ensures number { result.0 ≡ (laid (B.state base.now) draft.now).next_event }
    ensures more { IsTrue (has_next (laid (B.state base.now) draft.now).next_event) }
{
    EventId(base.next_event() + draft.events() as u64)
}

/// How many lines were taken.
#[tactic(auto, using(crate::proofs::NextLemmas::inputs_laid, crate::proofs::NextLemmas::goes_on))]
pub fn inputs<B: Base>(base: &B, draft: &Draft) -> u64
    requires { IsLow (B.state base.now) }
    ensures number { result ≡ (laid (B.state base.now) draft.now).inputs }
    ensures more { IsTrue (has_next (laid (B.state base.now) draft.now).inputs) }
{
    base.inputs() + after::count_drawn(draft.changes(), Drawn::Input) as u64
}

/// The moment that the last clock line gave.
#[tactic(auto, using(crate::proofs::NextLemmas::clock_laid))]
pub fn clock<B: Base>(base: &B, draft: &Draft) -> u64
    ensures { result ≡ (laid (B.state base.now) draft.now).clock }
{
    after::clock_through(draft.changes(), base.clock())
}

/// Whether the activity is a null activity, and whether it is Ending.
pub fn activity<B: Base>(base: &B, draft: &Draft, activity: ActivityId) -> Option<(bool, bool)>
    ensures { result ≡ option_map (λ row. (is_null row.kind, row.ending)) (activity_at (laid (B.state base.now) draft.now).activities activity.0) }
{
    let next = base.next_activity();
    let was = base.activity(activity);
    if activity.0 < next && !draft.ends(activity) {
        return was;
    }
    let seen = (after::ahead_of(next, activity.0), was);
    after::activity_through(draft.changes(), activity, seen).1
}

/// The activity for which a name stands.
#[tactic(auto, using(crate::proofs::NameLemmas::named_laid))]
pub fn named<B: Base>(base: &B, draft: &Draft, name: &Text) -> Option<ActivityId>
    ensures { result ≡ named_at (laid (B.state base.now) draft.now).names name.now }
{
    base.ordered();
    after::named_through(draft.changes(), name, base.named(name))
}

/// Whether no entity has received the activity's head event yet.
#[tactic(auto, using(crate::proofs::MarkLemmas::undelivered_laid))]
pub fn is_undelivered<B: Base>(base: &B, draft: &Draft, activity: ActivityId) -> bool
    ensures { result ≡ is_undelivered (laid (B.state base.now) draft.now).delivered activity.0 }
{
    let was = base.is_undelivered(activity);
    after::undelivered_through(draft.changes(), activity, was)
}

/// The number of an entity's block.
#[tactic(auto, using(crate::proofs::EntityLemmas::block_laid, crate::proofs::TouchLemmas::block_still))]
pub fn block<B: Base>(base: &B, draft: &Draft, entity: EntityId) -> Option<u32>
    ensures { result ≡ option_map (λ row. row.block) (entity_at (laid (B.state base.now) draft.now).entities entity.0) }
{
    let next = base.next_entity();
    let was = base.block(entity);
    if entity.0 < next && !draft.touches(entity) {
        return was;
    }
    let seen = (after::ahead_of(next, entity.0), was);
    after::block_through(draft.changes(), entity, seen).1
}

/// The parent of an entity, 0 for a root.
#[tactic(auto, using(crate::proofs::EntityLemmas::parent_laid, crate::proofs::TouchLemmas::parent_still))]
pub fn parent<B: Base>(base: &B, draft: &Draft, entity: EntityId) -> Option<u64>
    ensures { result ≡ option_map (λ row. parent_of row) (entity_at (laid (B.state base.now) draft.now).entities entity.0) }
{
    let next = base.next_entity();
    let was = base.parent(entity);
    if entity.0 < next && !draft.touches(entity) {
        return was;
    }
    let seen = (after::ahead_of(next, entity.0), was);
    after::parent_through(draft.changes(), entity, seen).1
}

/// The value of an entity's field.
#[tactic(auto, using(crate::proofs::FieldLemmas::field_laid, crate::proofs::TouchLemmas::field_still))]
pub fn field<'a, B: Base>(
    base: &'a B,
    draft: &'a Draft,
    entity: EntityId,
    name: &Name,
) -> Option<&'a Value>
    ensures { option_copied result ≡ field_at (laid (B.state base.now) draft.now).fields entity.0 name.now }
{
    let was = base.field(entity, name);
    if !draft.touches(entity) {
        return was;
    }
    after::field_through(draft.changes(), entity, name, was)
}

/// The activities to which an entity is attached, rising.
#[tactic(auto, using(crate::proofs::LinkedLemmas::activities_laid))]
pub fn activities<B: Base>(
    alloc: Global,
    base: &B,
    draft: &Draft,
    entity: EntityId,
) -> Result<Vec<u64>, NoMemory>
    ensures { IfOk result (λ all. all.items ≡ activities_of (laid (B.state base.now) draft.now).links entity.0) }
{
    base.ordered();
    let mut all = base.activities(alloc, entity)?;
    if !draft.touches(entity) {
        let stay = lists::kept(alloc, draft, &all)?;
        return Ok(stay);
    }
    lists::activities_through(alloc, draft.changes(), entity, &mut all)?;
    Ok(all)
}

/// The numbers of the first events of the activity's queue, so many of them or all.
fn front<B: Base>(
    alloc: Global,
    base: &B,
    activity: ActivityId,
    count: u64,
) -> Result<Vec<u64>, NoMemory>
    ensures { IfOk result (λ all. all.items ≡ take count (waiting_on (B.state base.now).events activity.0)) }
{
    let mut all = Vec::new(alloc);
    'places: for place in 0..count {
        match base.waiting_at(activity, place) {
            Some(event) => all.push(event.0)?,
            None => return Ok(all),
        }
    }
    Ok(all)
}

/// The number of the activity's head event. Of its queue no more is read than the events that the changes take from it, and one more.
#[tactic(auto, using(crate::proofs::QueueLemmas::head_still))]
pub fn head<B: Base>(
    alloc: Global,
    base: &B,
    draft: &Draft,
    activity: ActivityId,
) -> Result<Option<EventId>, NoMemory>
    ensures { IfOk result (λ head. head ≡ option_map (λ v. v.id) (head_event (laid (B.state base.now) draft.now).events activity.0)) }
{
    let changes = draft.changes();
    if !after::is_queue_moved(changes, activity) {
        return Ok(base.head(activity));
    }
    base.ordered();
    let popped = after::count_popped(changes, activity) as u64;
    let mut all = front(alloc, base, activity, popped + 1)?;
    lists::waiting_through(alloc, changes, activity, &mut all)?;
    match all.as_slice() {
        [] => Ok(None),
        [first, ..] => Ok(Some(EventId(*first))),
    }
}

/// Whether the activity's head event is suspended.
#[tactic(auto, using(crate::proofs::QueueLemmas::suspended_laid))]
pub fn is_suspended<B: Base>(base: &B, draft: &Draft, activity: ActivityId) -> bool
    ensures { result ≡ is_suspended (laid (B.state base.now) draft.now).suspensions activity.0 }
{
    let was = base.is_suspended(activity);
    after::suspended_through(draft.changes(), activity, was)
}

/// The numbers of the children of an entity, rising; of 0, those of the roots.
#[tactic(auto, using(crate::proofs::ChildLemmas::kids_laid))]
pub fn children<B: Base>(
    alloc: Global,
    base: &B,
    draft: &Draft,
    entity: EntityId,
) -> Result<Vec<u64>, NoMemory>
    requires { IsLow (B.state base.now) }
    ensures { IfOk result (λ all. all.items ≡ kids (laid (B.state base.now) draft.now).entities entity.0) }
{
    let mut all = base.children(alloc, entity)?;
    if !draft.touches(entity) && !lists::are_touched(draft, &all) {
        return Ok(all);
    }
    lists::children_through(alloc, draft.changes(), entity, base.next_entity(), &mut all)?;
    Ok(all)
}
