//! The timers on an activity after a step's changes so far.
ghost use Rattle.std.specs.Prelude.{◌≡◌, ◌++◌, ◌+◌, ◌<◌, ◌≤◌, ◌^◌, ◌==◌, filter, length, not, IfOk, OnOk};
ghost use Rattle.std.specs.List.{fold, list_any};
ghost use Rattle.router_state.specs.Timers.{advanced, without_timer};
ghost use Rattle.router_state.specs.declared.change.Change.TheVariants as changes;
ghost use Rattle.router_draft.specs.Drafts.{laid, IsLow};
ghost use Rattle.router_closing.specs.Timers.{timers_after};

use crate::Closing;
use router_draft::Draft;
use router_state::{Change, Timer, TimerSpec};
use slee_value::{ActivityId, NoMemory, TimerId};
use std::alloc::Global;

/// A timer is set, with this number; it is listed where it is on the activity.
fn set(
    spec: &TimerSpec,
    activity: ActivityId,
    next: u64,
    all: &mut Vec<Timer>,
) -> Result<(), NoMemory>
    ensures { OnOk result (all.new.items ≡ (timers_after (changes.SetTimer spec.now) activity.0 (next, all.old.items)).1) }
{
    if spec.activity.0 == activity.0 {
        all.push(Timer {
            number: TimerId(next),
            activity: spec.activity,
            next: spec.start,
            period: spec.period,
            left: spec.times,
            keep: spec.keep,
        })?;
    }
    Ok(())
}

/// The timers without the one of this number.
fn without(alloc: Global, rows: &[Timer], timer: TimerId) -> Result<Vec<Timer>, NoMemory>
    ensures { IfOk result (λ all. all.items ≡ without_timer rows.now timer.0) }
{
    let mut all = Vec::new(alloc);
    'rows: for row in rows {
        if row.number.0 != timer.0 {
            all.push(*row)?;
        }
    }
    Ok(all)
}

/// The timers as the clock comes to the moment.
#[tactic(auto, using(crate::proofs::TimerLemmas::goes_behind, crate::proofs::TimerLemmas::goes_out))]
fn advanced<C: Closing>(
    alloc: Global,
    setting: &C,
    rows: &[Timer],
    to: u64,
) -> Result<Vec<Timer>, NoMemory>
    ensures { IfOk result (λ all. all.items ≡ advanced rows.now to) }
{
    let mut all = Vec::new(alloc);
    'rows: for row in rows {
        if let Some(behind) = setting.behind(row, to) {
            all.push(behind)?;
        }
    }
    Ok(all)
}

/// The next number, and the timers on the activity, after the change.
fn timers<C: Closing>(
    alloc: Global,
    setting: &C,
    change: &Change,
    activity: ActivityId,
    next: u64,
    all: &mut Vec<Timer>,
) -> Result<u64, NoMemory>
    requires { next + 1 < 2 ^ 64 }
    ensures next { IfOk result (λ later. later ≤ next + 1) }
    ensures seen { IfOk result (λ later. (later, all.new.items) ≡ timers_after change.now activity.0 (next, all.old.items)) }
{
    match change {
        Change::SetTimer { spec } => {
            set(spec, activity, next, all)?;
            Ok(next + 1)
        }
        Change::Cancel { timer } => {
            *all = without(alloc, all, *timer)?;
            Ok(next)
        }
        Change::CancelAll { activity: a } => {
            if a.0 == activity.0 {
                *all = Vec::new(alloc);
            }
            Ok(next)
        }
        Change::Advance { to } => {
            *all = advanced(alloc, setting, all, *to)?;
            Ok(next)
        }
        _ => Ok(next),
    }
}

/// The timers on the activity after changes.
#[tactic(auto, using(crate::proofs::TimerLemmas::second_is))]
fn timers_through<C: Closing>(
    alloc: Global,
    setting: &C,
    changes: &[Change],
    activity: ActivityId,
    first: u64,
    all: &mut Vec<Timer>,
) -> Result<(), NoMemory>
    requires low { first ≤ 2 ^ 62 }
    requires few { length changes.now < 2 ^ 63 }
    ensures { OnOk result (all.new.items ≡ (fold (λ seen c. timers_after c activity.0 seen) (first, all.old.items) changes.now).1) }
{
    let mut next = first;
    'changes: for change in changes {
        next = timers(alloc, setting, change, activity, next, all)?;
    }
    Ok(())
}

/// Whether a timer is on the activity.
#[tactic(auto, using(crate::proofs::TimerLemmas::timers_laid, crate::proofs::TimerLemmas::some_left))]
pub fn has_timer<C: Closing>(
    alloc: Global,
    setting: &C,
    draft: &Draft,
    activity: ActivityId,
) -> Result<bool, NoMemory>
    requires { IsLow (C.state setting.now) }
    ensures { IfOk result (λ is. is ≡ list_any (λ t. t.activity.0 == activity.0) (laid (C.state setting.now) draft.now).timers) }
{
    let mut all = setting.timers(alloc, activity)?;
    timers_through(
        alloc,
        setting,
        draft.changes(),
        activity,
        setting.next_timer(),
        &mut all,
    )?;
    Ok(!all.is_empty())
}
