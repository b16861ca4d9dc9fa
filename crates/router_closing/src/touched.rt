//! The roots that a step touched: those that it makes, and those above entities whose attachments it may cut.
ghost use Rattle.std.specs.Prelude.{◌≡◌, ◌++◌, flat_map, map, IfOk, OnOk};
ghost use Rattle.router_draft.specs.Drafts.{IsLow};
ghost use Rattle.router_laws_closing.specs.TouchedRoots.{attached_by, attached_to, births, climbed, cut_by, first_parent, touched_roots};

use crate::Closing;
use crate::births::{births, climb};
use crate::numbers::push_between;
use router_draft::{Base, Draft, reading};
use router_state::Change;
use slee_value::{ActivityId, NoMemory};
use std::alloc::Global;

/// The entity that the change attaches to the activity.
fn push_attached(change: &Change, activity: ActivityId, all: &mut Vec<u64>) -> Result<(), NoMemory>
    ensures { OnOk result (all.new.items ≡ all.old.items ++ attached_by activity.0 change.now) }
{
    match change {
        Change::Attach {
            entity,
            activity: other,
        } => {
            if other.0 == activity.0 {
                all.push(entity.0)?;
            }
        }
        _ => {}
    }
    Ok(())
}

/// The same of changes.
fn push_all_attached(
    changes: &[Change],
    activity: ActivityId,
    all: &mut Vec<u64>,
) -> Result<(), NoMemory>
    ensures { OnOk result (all.new.items ≡ all.old.items ++ flat_map (attached_by activity.0) changes.now) }
{
    'changes: for change in changes {
        push_attached(change, activity, all)?;
    }
    Ok(())
}

/// The entities that may be attached to the activity after the changes: they were before the step, or a change attaches them.
pub fn attached_to<C: Closing>(
    alloc: Global,
    setting: &C,
    changes: &[Change],
    activity: ActivityId,
) -> Result<Vec<u64>, NoMemory>
    ensures { IfOk result (λ all. all.items ≡ attached_to (C.state setting.now) changes.now activity.0) }
{
    let mut all = setting.attached(alloc, activity)?;
    push_all_attached(changes, activity, &mut all)?;
    Ok(all)
}

/// The entities whose attachments the change may cut.
fn push_cut<C: Closing>(
    alloc: Global,
    setting: &C,
    changes: &[Change],
    change: &Change,
    all: &mut Vec<u64>,
) -> Result<(), NoMemory>
    ensures { OnOk result (all.new.items ≡ all.old.items ++ cut_by (C.state setting.now) changes.now change.now) }
{
    match change {
        Change::Detach { entity, .. } => all.push(entity.0)?,
        Change::DropContext { activity } => {
            let cut = attached_to(alloc, setting, changes, *activity)?;
            all.extend_from_slice(&cut)?;
        }
        _ => {}
    }
    Ok(())
}

/// The same of all changes.
fn cut_entities<C: Closing>(
    alloc: Global,
    setting: &C,
    changes: &[Change],
) -> Result<Vec<u64>, NoMemory>
    ensures { IfOk result (λ all. all.items ≡ flat_map (cut_by (C.state setting.now) changes.now) changes.now) }
{
    let mut all = Vec::new(alloc);
    'changes: for change in changes {
        push_cut(alloc, setting, changes, change, &mut all)?;
    }
    Ok(all)
}

/// The roots above these entities.
fn push_climbed<B: Base>(
    base: &B,
    made: &[u64],
    entities: &[u64],
    all: &mut Vec<u64>,
) -> Result<(), NoMemory>
    ensures { OnOk result (all.new.items ≡ all.old.items ++ map (λ e. climbed (first_parent (B.state base.now) made.now) e e) entities.now) }
{
    'entities: for entity in entities {
        all.push(climb(base, made, *entity))?;
    }
    Ok(())
}

/// The entities that the step makes, and the roots above those whose attachments it may cut.
pub fn touched_roots<C: Closing>(
    alloc: Global,
    setting: &C,
    draft: &Draft,
) -> Result<Vec<u64>, NoMemory>
    requires { IsLow (C.state setting.now) }
    ensures { IfOk result (λ all. all.items ≡ touched_roots (C.state setting.now) draft.now.changes) }
{
    let changes = draft.changes();
    let made = births(alloc, changes)?;
    let cut = cut_entities(alloc, setting, changes)?;
    let next = reading::next_entity(setting, draft);
    let mut all = Vec::new(alloc);
    push_between(&mut all, setting.next_entity(), next.0)?;
    push_climbed(setting, &made, &cut, &mut all)?;
    Ok(all)
}
