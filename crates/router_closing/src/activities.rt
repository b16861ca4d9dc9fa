//! Null activities that aren't in use end (JSR 240, chapter 7).
ghost use Rattle.std.specs.Prelude.{◌≡◌, ◌++◌, flat_map, IfOk, OnOk};
ghost use Rattle.router_state.specs.Well.{IsClosed};
ghost use Rattle.router_steps.specs.Closing.{activity_numbers, close_null, close_nulls, lines_of_null, lines_of_nulls, without_unused};
ghost use Rattle.router_draft.specs.Drafts.{laid, CanBeMade, IsLow};
ghost use Rattle.router_laws_closing.specs.TouchedActivities.{let_go_by, this_one, touched_activities};

use crate::Closing;
use crate::in_use::is_idle;
use crate::numbers::{push_between, rising};
use router_draft::{Draft, reading};
use router_moves::end;
use router_state::Change;
use slee_value::{ActivityId, NoMemory};
use std::alloc::Global;

/// An activity, where there is one.
fn push_this(activity: Option<ActivityId>, all: &mut Vec<u64>) -> Result<(), NoMemory>
    ensures { OnOk result (all.new.items ≡ all.old.items ++ this_one activity) }
{
    match activity {
        Some(activity) => all.push(activity.0)?,
        None => {}
    }
    Ok(())
}

/// The activities that the change may let go: from which it takes something, or to which it gives what a later change may take.
#[tactic(auto, using(crate::proofs::IdleLemmas::timed_is, crate::proofs::IdleLemmas::pushed_two))]
fn push_let_go<C: Closing>(
    alloc: Global,
    setting: &C,
    change: &Change,
    all: &mut Vec<u64>,
) -> Result<(), NoMemory>
    ensures { OnOk result (all.new.items ≡ all.old.items ++ let_go_by (C.state setting.now) change.now) }
{
    match change {
        Change::DropContext { activity } => all.push(activity.0)?,
        Change::Detach { activity, .. } => all.push(activity.0)?,
        Change::Pop { activity } => all.push(activity.0)?,
        Change::CancelAll { activity } => all.push(activity.0)?,
        Change::SetTimer { spec } => all.push(spec.activity.0)?,
        Change::Bind { name, activity } => {
            all.push(activity.0)?;
            push_this(setting.named(name), all)?;
        }
        Change::Unbind { name } => push_this(setting.named(name), all)?,
        Change::Cancel { timer } => push_this(setting.timer(*timer), all)?,
        Change::Advance { to } => {
            let due = setting.due(alloc, *to)?;
            all.extend_from_slice(&due)?;
        }
        _ => {}
    }
    Ok(())
}

/// The same of changes.
fn push_all_let_go<C: Closing>(
    alloc: Global,
    setting: &C,
    changes: &[Change],
    all: &mut Vec<u64>,
) -> Result<(), NoMemory>
    ensures { OnOk result (all.new.items ≡ all.old.items ++ flat_map (let_go_by (C.state setting.now)) changes.now) }
{
    'changes: for change in changes {
        push_let_go(alloc, setting, change, all)?;
    }
    Ok(())
}

/// The activities that the step starts, and those that it may let go.
fn touched_activities<C: Closing>(
    alloc: Global,
    setting: &C,
    draft: &Draft,
) -> Result<Vec<u64>, NoMemory>
    requires { IsLow (C.state setting.now) }
    ensures { IfOk result (λ all. all.items ≡ touched_activities (C.state setting.now) draft.now.changes) }
{
    let next = reading::next_activity(setting, draft);
    let mut all = Vec::new(alloc);
    push_between(&mut all, setting.next_activity(), next.0)?;
    push_all_let_go(alloc, setting, draft.changes(), &mut all)?;
    Ok(all)
}

/// The activity ends, where it is an Active null activity that isn't in use.
#[tactic(auto, using(crate::proofs::IdleLemmas::idle_active))]
fn close_null<C: Closing>(
    alloc: Global,
    setting: &C,
    draft: &mut Draft,
    activity: ActivityId,
) -> Result<(), NoMemory>
    requires low { IsLow (C.state setting.now) }
    requires made { CanBeMade (C.state setting.now) draft.old }
    ensures state { OnOk result (laid (C.state setting.now) draft.new ≡ close_null activity.0 (laid (C.state setting.now) draft.old)) }
    ensures lines { OnOk result (draft.new.lines ≡ draft.old.lines ++ lines_of_null activity.0 (laid (C.state setting.now) draft.old)) }
    ensures made { OnOk result (CanBeMade (C.state setting.now) draft.new) }
{
    if is_idle(alloc, setting, draft, activity)? {
        end(alloc, setting, draft, activity)?;
    }
    Ok(())
}

/// The same of these activities, the first of them first.
fn close_nulls<C: Closing>(
    alloc: Global,
    setting: &C,
    draft: &mut Draft,
    activities: &[u64],
) -> Result<(), NoMemory>
    requires low { IsLow (C.state setting.now) }
    requires made { CanBeMade (C.state setting.now) draft.old }
    ensures state { OnOk result (laid (C.state setting.now) draft.new ≡ close_nulls activities.now (laid (C.state setting.now) draft.old)) }
    ensures lines { OnOk result (draft.new.lines ≡ draft.old.lines ++ lines_of_nulls activities.now (laid (C.state setting.now) draft.old)) }
    ensures made { OnOk result (CanBeMade (C.state setting.now) draft.new) }
{
    'activities: for activity in activities {
        close_null(alloc, setting, draft, ActivityId(*activity))?;
    }
    Ok(())
}

/// Each Active null activity that isn't in use ends. Only those that the step touched are looked at.
#[tactic(auto, using(crate::proofs::ClosingLemmas::nulls_close, crate::proofs::ClosingLemmas::nulls_tell))]
pub fn close_activities<C: Closing>(
    alloc: Global,
    setting: &C,
    draft: &mut Draft,
) -> Result<(), NoMemory>
    requires closed { IsClosed (C.state setting.now) }
    requires low { IsLow (C.state setting.now) }
    requires made { CanBeMade (C.state setting.now) draft.old }
    ensures state { OnOk result (laid (C.state setting.now) draft.new ≡ without_unused (laid (C.state setting.now) draft.old)) }
    ensures lines { OnOk result (draft.new.lines ≡ draft.old.lines ++ lines_of_nulls (activity_numbers (laid (C.state setting.now) draft.old)) (laid (C.state setting.now) draft.old)) }
    ensures made { OnOk result (CanBeMade (C.state setting.now) draft.new) }
{
    setting.ordered();
    let touched = touched_activities(alloc, setting, draft)?;
    let activities = rising(touched);
    close_nulls(alloc, setting, draft, &activities)?;
    Ok(())
}
