//! What is seen at a key after changes.
ghost use Rattle.std.specs.Prelude.{◌≡◌, ◌≤◌, length, count_by, option_copied};
ghost use Rattle.std.specs.List.{fold, list_any};
ghost use Rattle.router_state.specs.Contexts.{is_null};
ghost use Rattle.router_draft.specs.After.{activity_after, ahead_of, block_after, clock_after, draws, field_after, linked_after, made_new, moves_queue, named_after, parent_after, pops, suspended_after, undelivered_after};

use router_state::{AcKind, Change};
use slee_value::{ActivityId, EntityId, Name, Text, Value};

/// Whether the entity is attached to the activity after the change.
pub fn linked(change: &Change, entity: EntityId, activity: ActivityId, was: bool) -> bool
    ensures { result ≡ linked_after change.now entity.0 activity.0 was }
{
    match change {
        Change::Attach {
            entity: e,
            activity: a,
        } => (e.0 == entity.0 && a.0 == activity.0) || was,
        Change::Detach {
            entity: e,
            activity: a,
        } => !(e.0 == entity.0 && a.0 == activity.0) && was,
        Change::DropContext { activity: a } => a.0 != activity.0 && was,
        _ => was,
    }
}

/// The same after changes.
pub fn linked_through(changes: &[Change], entity: EntityId, activity: ActivityId, was: bool) -> bool
    ensures { result ≡ fold (λ was c. linked_after c entity.0 activity.0 was) was changes.now }
{
    changes
        .iter()
        .fold(was, |was, change| linked(change, entity, activity, was))
}

/// A kind of numbers that are drawn.
#[derive(Debug, Clone, Copy, PartialEq, Eq)]
pub enum Drawn {
    Entity,
    Activity,
    Timer,
    Event,
    Input,
}

/// Whether the change draws a number of this kind.
pub fn is_drawing(kind: Drawn, change: &Change) -> bool
    ensures { result ≡ draws kind change.now }
{
    match change {
        Change::CreateRoot { .. } => kind == Drawn::Entity,
        Change::CreateChild { .. } => kind == Drawn::Entity,
        Change::Start { .. } => kind == Drawn::Activity,
        Change::SetTimer { .. } => kind == Drawn::Timer,
        Change::NextEvent => kind == Drawn::Event,
        Change::Taken => kind == Drawn::Input,
        _ => false,
    }
}

/// How many numbers of this kind were drawn.
pub fn count_drawn(changes: &[Change], kind: Drawn) -> usize
    ensures number { result ≡ count_by (draws kind) changes.now }
    ensures few { result ≤ length changes.now }
{
    changes
        .iter()
        .filter(|change| is_drawing(kind, change))
        .count()
}

/// The moment that the last clock line gave, after the change.
fn clock(change: &Change, was: u64) -> u64
    ensures { result ≡ clock_after change.now was }
{
    match change {
        Change::Clock { to } => *to,
        _ => was,
    }
}

/// The same after changes.
pub fn clock_through(changes: &[Change], was: u64) -> u64
    ensures { result ≡ fold (λ was c. clock_after c was) was changes.now }
{
    changes.iter().fold(was, |was, change| clock(change, was))
}

/// How many numbers are drawn before this one; none is, and it doesn't come any more, where it is below the next one.
pub fn ahead_of(next: u64, number: u64) -> Option<u64>
    ensures { result ≡ ahead_of next number }
{
    if number < next {
        None
    } else {
        Some(number - next)
    }
}

/// Something new has the next number: how many are drawn before the number that is looked for, and what is seen there.
fn made<A: Copy>(seen: (Option<u64>, Option<A>), new: A) -> (Option<u64>, Option<A>)
    ensures { result ≡ made_new seen new }
{
    let (ahead, was) = seen;
    match ahead {
        None => (None, was),
        Some(more) => {
            if more > 0 {
                return (Some(more - 1), was);
            }
            (None, was.or(Some(new)))
        }
    }
}

/// The block of an entity, where it is there, and how many numbers are drawn before its own, after the change.
fn block(
    change: &Change,
    entity: EntityId,
    seen: (Option<u64>, Option<u32>),
) -> (Option<u64>, Option<u32>)
    ensures { result ≡ block_after change.now entity.0 seen }
{
    match change {
        Change::CreateRoot { block, .. } => made(seen, *block),
        Change::CreateChild { block, .. } => made(seen, *block),
        Change::Remove { entity: e } if e.0 == entity.0 => (seen.0, None),
        _ => seen,
    }
}

/// The same after changes.
pub fn block_through(
    changes: &[Change],
    entity: EntityId,
    seen: (Option<u64>, Option<u32>),
) -> (Option<u64>, Option<u32>)
    ensures { result ≡ fold (λ seen c. block_after c entity.0 seen) seen changes.now }
{
    changes
        .iter()
        .fold(seen, |seen, change| block(change, entity, seen))
}

/// The parent of an entity, where it is there, and how many numbers are drawn before its own, after the change.
fn parent(
    change: &Change,
    entity: EntityId,
    seen: (Option<u64>, Option<u64>),
) -> (Option<u64>, Option<u64>)
    ensures { result ≡ parent_after change.now entity.0 seen }
{
    match change {
        Change::CreateRoot { .. } => made(seen, 0),
        Change::CreateChild { parent, .. } => made(seen, parent.0),
        Change::Remove { entity: e } if e.0 == entity.0 => (seen.0, None),
        _ => seen,
    }
}

/// The same after changes.
pub fn parent_through(
    changes: &[Change],
    entity: EntityId,
    seen: (Option<u64>, Option<u64>),
) -> (Option<u64>, Option<u64>)
    ensures { result ≡ fold (λ seen c. parent_after c entity.0 seen) seen changes.now }
{
    changes
        .iter()
        .fold(seen, |seen, change| parent(change, entity, seen))
}

/// Whether an activity is a null activity and whether it is Ending, where it is there, and how many numbers are drawn before its own, after the change.
fn activity(
    change: &Change,
    activity: ActivityId,
    seen: (Option<u64>, Option<(bool, bool)>),
) -> (Option<u64>, Option<(bool, bool)>)
    ensures { result ≡ activity_after change.now activity.0 seen }
{
    match change {
        Change::Start { kind } => made(seen, (is_null(kind), false)),
        Change::End { activity: a } if a.0 == activity.0 => {
            (seen.0, seen.1.map(|row| (row.0, true)))
        }
        Change::DropContext { activity: a } if a.0 == activity.0 => (seen.0, None),
        _ => seen,
    }
}

/// Whether the kind is that of null activities.
fn is_null(kind: &AcKind) -> bool
    ensures { result ≡ is_null kind.now }
{
    match kind {
        AcKind::Null => true,
        _ => false,
    }
}

/// The same as of one change after changes.
pub fn activity_through(
    changes: &[Change],
    number: ActivityId,
    seen: (Option<u64>, Option<(bool, bool)>),
) -> (Option<u64>, Option<(bool, bool)>)
    ensures { result ≡ fold (λ seen c. activity_after c number.0 seen) seen changes.now }
{
    changes
        .iter()
        .fold(seen, |seen, change| activity(change, number, seen))
}

/// The activity for which a name stands after the change.
fn named(change: &Change, name: &Text, was: Option<ActivityId>) -> Option<ActivityId>
    ensures { result ≡ named_after change.now name.now was }
{
    match change {
        Change::Bind {
            name: own,
            activity,
        } if own.same(name) => Some(*activity),
        Change::Unbind { name: own } if own.same(name) => None,
        Change::DropContext { activity } => was.filter(|a| a.0 != activity.0),
        _ => was,
    }
}

/// The same after changes.
pub fn named_through(changes: &[Change], name: &Text, was: Option<ActivityId>) -> Option<ActivityId>
    ensures { result ≡ fold (λ was c. named_after c name.now was) was changes.now }
{
    changes
        .iter()
        .fold(was, |was, change| named(change, name, was))
}

/// The value of an entity's field after a change.
fn field<'a>(
    change: &'a Change,
    entity: EntityId,
    name: &Name,
    was: Option<&'a Value>,
) -> Option<&'a Value>
    ensures { option_copied result ≡ field_after change.now entity.0 name.now (option_copied was.entry) }
{
    match change {
        Change::SetField {
            entity: e,
            field,
            value,
        } if e.0 == entity.0 && field.same(name) => Some(value),
        Change::ForgetFields { entity: e } if e.0 == entity.0 => None,
        _ => was,
    }
}

/// The same after changes.
pub fn field_through<'a>(
    changes: &'a [Change],
    entity: EntityId,
    name: &Name,
    was: Option<&'a Value>,
) -> Option<&'a Value>
    ensures { option_copied result ≡ fold (λ was c. field_after c entity.0 name.now was) (option_copied was.entry) changes.now }
{
    let mut seen = was;
    'changes: for change in changes {
        seen = field(change, entity, name, seen);
    }
    seen
}

/// Whether the change moves the activity's queue.
fn moves_queue(change: &Change, activity: ActivityId) -> bool
    ensures { result ≡ moves_queue activity.0 change.now }
{
    match change {
        Change::Push { activity: a, .. } => a.0 == activity.0,
        Change::Pop { activity: a } => a.0 == activity.0,
        _ => false,
    }
}

/// Whether one of the changes does.
pub fn is_queue_moved(changes: &[Change], activity: ActivityId) -> bool
    ensures { result ≡ list_any (moves_queue activity.0) changes.now }
{
    changes.iter().any(|change| moves_queue(change, activity))
}

/// Whether the activity's head event goes by the change.
fn is_popping(change: &Change, activity: ActivityId) -> bool
    ensures { result ≡ pops activity.0 change.now }
{
    match change {
        Change::Pop { activity: a } => a.0 == activity.0,
        _ => false,
    }
}

/// How many events go from the activity's queue.
pub fn count_popped(changes: &[Change], activity: ActivityId) -> usize
    ensures number { result ≡ count_by (pops activity.0) changes.now }
    ensures few { result ≤ length changes.now }
{
    changes
        .iter()
        .filter(|change| is_popping(change, activity))
        .count()
}

/// Whether the activity's head event is suspended after the change.
fn suspended(change: &Change, activity: ActivityId, was: bool) -> bool
    ensures { result ≡ suspended_after change.now activity.0 was }
{
    match change {
        Change::Hold { activity: a, .. } => a.0 == activity.0 || was,
        Change::Release { activity: a } => a.0 != activity.0 && was,
        _ => was,
    }
}

/// The same after changes.
pub fn suspended_through(changes: &[Change], activity: ActivityId, was: bool) -> bool
    ensures { result ≡ fold (λ was c. suspended_after c activity.0 was) was changes.now }
{
    changes
        .iter()
        .fold(was, |was, change| suspended(change, activity, was))
}

/// Whether no entity has received the activity's head event yet, after the change.
fn undelivered(change: &Change, activity: ActivityId, was: bool) -> bool
    ensures { result ≡ undelivered_after change.now activity.0 was }
{
    match change {
        Change::MarkEntity { activity: a, .. } => a.0 != activity.0 && was,
        Change::Pop { activity: a } => a.0 == activity.0 || was,
        _ => was,
    }
}

/// The same after changes.
pub fn undelivered_through(changes: &[Change], activity: ActivityId, was: bool) -> bool
    ensures { result ≡ fold (λ was c. undelivered_after c activity.0 was) was changes.now }
{
    changes
        .iter()
        .fold(was, |was, change| undelivered(change, activity, was))
}
