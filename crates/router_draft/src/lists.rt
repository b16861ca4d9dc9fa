//! Lists that are seen at a key after changes.
ghost use Rattle.std.specs.Prelude.{◌≡◌, ◌+◌, ◌<◌, ◌≤◌, ◌^◌, nat_lt, not, ◌==◌, drop, filter, length, OnOk, IfOk};
ghost use Rattle.std.specs.List.{fold, list_any};
ghost use Rattle.rows_sorted.specs.Orders.{put};
ghost use Rattle.router_draft.specs.After.{activities_after, born, children_after, waiting_after};
ghost use Rattle.router_draft.specs.Touched.{drops, touches};

use crate::Draft;
use router_state::Change;
use slee_value::{ActivityId, EntityId, NoMemory};
use std::alloc::Global;

/// The numbers above this one.
fn above(alloc: Global, numbers: &[u64], number: u64) -> Result<Vec<u64>, NoMemory>
    ensures { IfOk result (λ all. all.items ≡ filter (λ other. nat_lt number other) numbers.now) }
{
    let mut all = Vec::new(alloc);
    'numbers: for other in numbers {
        if number < *other {
            all.push(*other)?;
        }
    }
    Ok(all)
}

/// The numbers below this one.
fn below(alloc: Global, numbers: &[u64], number: u64) -> Result<Vec<u64>, NoMemory>
    ensures { IfOk result (λ all. all.items ≡ filter (λ other. nat_lt other number) numbers.now) }
{
    let mut all = Vec::new(alloc);
    'numbers: for other in numbers {
        if *other < number {
            all.push(*other)?;
        }
    }
    Ok(all)
}

/// The other numbers.
fn others(alloc: Global, numbers: &[u64], number: u64) -> Result<Vec<u64>, NoMemory>
    ensures { IfOk result (λ all. all.items ≡ filter (λ other. not (other == number)) numbers.now) }
{
    let mut all = Vec::new(alloc);
    'numbers: for other in numbers {
        if *other != number {
            all.push(*other)?;
        }
    }
    Ok(all)
}

/// The number in its place among numbers that rise.
fn with_number(alloc: Global, numbers: &[u64], number: u64) -> Result<Vec<u64>, NoMemory>
    ensures { IfOk result (λ all. all.items ≡ put nat_lt number numbers.now) }
{
    let mut all = below(alloc, numbers, number)?;
    all.push(number)?;
    let behind = above(alloc, numbers, number)?;
    all.extend_from_slice(&behind)?;
    Ok(all)
}

/// The activities to which an entity is attached after the change.
fn activities(
    alloc: Global,
    change: &Change,
    entity: EntityId,
    all: &mut Vec<u64>,
) -> Result<(), NoMemory>
    ensures { OnOk result (all.new.items ≡ activities_after change.now entity.0 all.old.items) }
{
    match change {
        Change::Attach {
            entity: e,
            activity: a,
        } => {
            if e.0 == entity.0 {
                *all = with_number(alloc, all, a.0)?;
            }
            Ok(())
        }
        Change::Detach {
            entity: e,
            activity: a,
        } => {
            if e.0 == entity.0 {
                *all = others(alloc, all, a.0)?;
            }
            Ok(())
        }
        Change::DropContext { activity: a } => {
            *all = others(alloc, all, a.0)?;
            Ok(())
        }
        _ => Ok(()),
    }
}

/// The same after changes.
pub fn activities_through(
    alloc: Global,
    changes: &[Change],
    entity: EntityId,
    all: &mut Vec<u64>,
) -> Result<(), NoMemory>
    ensures { OnOk result (all.new.items ≡ fold (λ was c. activities_after c entity.0 was) all.old.items changes.now) }
{
    'changes: for change in changes {
        activities(alloc, change, entity, all)?;
    }
    Ok(())
}

/// The activities that don't go by a change so far.
pub fn kept(alloc: Global, draft: &Draft, activities: &[u64]) -> Result<Vec<u64>, NoMemory>
    ensures { IfOk result (λ all. all.items ≡ filter (λ a. not (list_any (drops a) draft.now.changes)) activities.now) }
{
    let mut all = Vec::new(alloc);
    'activities: for activity in activities {
        if !draft.drops(ActivityId(*activity)) {
            all.push(*activity)?;
        }
    }
    Ok(all)
}

/// Whether a change so far touches one of these entities.
pub fn are_touched(draft: &Draft, entities: &[u64]) -> bool
    ensures { result ≡ list_any (λ e. list_any (touches e) draft.now.changes) entities.now }
{
    entities.iter().any(|e| draft.touches(EntityId(*e)))
}

/// The numbers without the first one.
fn behind_first(alloc: Global, numbers: &[u64]) -> Result<Vec<u64>, NoMemory>
    ensures { IfOk result (λ all. all.items ≡ drop 1 numbers.now) }
{
    match numbers {
        [] => Ok(Vec::new(alloc)),
        [_, rest @ ..] => Ok(Vec::from_slice(alloc, rest)?),
    }
}

/// The numbers of the events that wait on the activity after the change.
fn waiting(
    alloc: Global,
    change: &Change,
    activity: ActivityId,
    all: &mut Vec<u64>,
) -> Result<(), NoMemory>
    ensures { OnOk result (all.new.items ≡ waiting_after change.now activity.0 all.old.items) }
{
    match change {
        Change::Push { activity: a, event } => {
            if a.0 == activity.0 {
                *all = with_number(alloc, all, event.id.0)?;
            }
            Ok(())
        }
        Change::Pop { activity: a } => {
            if a.0 == activity.0 {
                *all = behind_first(alloc, all)?;
            }
            Ok(())
        }
        _ => Ok(()),
    }
}

/// The same after changes.
pub fn waiting_through(
    alloc: Global,
    changes: &[Change],
    activity: ActivityId,
    all: &mut Vec<u64>,
) -> Result<(), NoMemory>
    ensures { OnOk result (all.new.items ≡ fold (λ was c. waiting_after c activity.0 was) all.old.items changes.now) }
{
    'changes: for change in changes {
        waiting(alloc, change, activity, all)?;
    }
    Ok(())
}

/// An entity of this parent is created.
fn bear(next: u64, entity: EntityId, parent: u64, all: &mut Vec<u64>) -> Result<u64, NoMemory>
    requires { next + 1 < 2 ^ 64 }
    ensures { IfOk result (λ later. (later, all.new.items) ≡ born entity.0 (next, all.old.items) parent) }
{
    if parent == entity.0 {
        all.push(next)?;
    }
    Ok(next + 1)
}

/// The next number and the children of an entity after the change.
fn children(
    alloc: Global,
    change: &Change,
    entity: EntityId,
    next: u64,
    all: &mut Vec<u64>,
) -> Result<u64, NoMemory>
    requires { next + 1 < 2 ^ 64 }
    ensures next { IfOk result (λ later. later ≤ next + 1) }
    ensures seen { IfOk result (λ later. (later, all.new.items) ≡ children_after change.now entity.0 (next, all.old.items)) }
{
    match change {
        Change::CreateRoot { .. } => bear(next, entity, 0, all),
        Change::CreateChild { parent, .. } => bear(next, entity, parent.0, all),
        Change::Remove { entity: e } => {
            *all = others(alloc, all, e.0)?;
            Ok(next)
        }
        _ => Ok(next),
    }
}

/// The children of an entity after changes.
#[tactic(auto, using(crate::proofs::ChildLemmas::second_is))]
pub fn children_through(
    alloc: Global,
    changes: &[Change],
    entity: EntityId,
    first: u64,
    all: &mut Vec<u64>,
) -> Result<(), NoMemory>
    requires low { first ≤ 2 ^ 62 }
    requires few { length changes.now < 2 ^ 63 }
    ensures { OnOk result (all.new.items ≡ (fold (λ seen c. children_after c entity.0 seen) (first, all.old.items) changes.now).1) }
{
    let mut next = first;
    'changes: for change in changes {
        next = children(alloc, change, entity, next, all)?;
    }
    Ok(())
}
