//! Handlers set timers, and suspend head events.
ghost use Rattle.std.specs.Prelude.{◌≡◌, ◌++◌, ◌∷◌, [], OnOk, ◌&&◌, not, if◌then◌else◌, nat_le, nat_lt};
ghost use Rattle.router_state.specs.Changes.{after_change};
ghost use Rattle.router_state.specs.Contexts.{is_active};
ghost use Rattle.router_state.specs.Fitting.{has_activity, is_spec};
ghost use Rattle.router_state.specs.Queues.{is_undelivered};
ghost use Rattle.router_state.specs.Timers.{last_moment};
ghost use Rattle.router_state.specs.declared.change.Change.TheVariants as changes;
ghost use Rattle.router_steps.specs.Effects.{lines_of_suspended};
ghost use Rattle.router_steps.specs.Lines.{timer_line};
ghost use Rattle.router_steps.specs.Moves.{resumed, lines_of_resumed};
ghost use Rattle.router_draft.specs.Drafts.{laid, CanBeMade, IsLow};

use crate::applying::{has_activity, is_active};
use router_draft::{Base, Draft, change, reading};
use router_moves::{Setting, resume, suspend};
use router_state::{Change, TimerSpec};
use signal_script::CLOCK_LIMIT;
use slee_value::{ActivityId, NoMemory, TimerId};
use std::alloc::Global;

/// Whether a timer has a period or one occurrence, its numbers being moments.
fn is_spec(spec: TimerSpec) -> bool
    ensures { result ≡ is_spec spec }
{
    spec.start <= CLOCK_LIMIT
        && (spec.period <= CLOCK_LIMIT
            && (spec.times <= CLOCK_LIMIT && (0 < spec.period || spec.times == 1)))
}

/// A timer is set on an Active activity.
pub(crate) fn set_timer<S: Setting>(
    alloc: Global,
    setting: &S,
    draft: &mut Draft,
    spec: TimerSpec,
) -> Result<(), NoMemory>
    requires low { IsLow (S.state setting.now) }
    requires made { CanBeMade (S.state setting.now) draft.old }
    ensures state { OnOk result (laid (S.state setting.now) draft.new ≡ (if is_active (laid (S.state setting.now) draft.old).activities spec.activity.0 && is_spec spec then after_change (changes.SetTimer spec) (laid (S.state setting.now) draft.old) else (laid (S.state setting.now) draft.old))) }
    ensures lines { OnOk result (draft.new.lines ≡ draft.old.lines ++ (if is_active (laid (S.state setting.now) draft.old).activities spec.activity.0 && is_spec spec then timer_line (laid (S.state setting.now) draft.old).next_timer spec.activity.0 ∷ [] else [])) }
    ensures made { OnOk result (CanBeMade (S.state setting.now) draft.new) }
{
    if !is_active(setting, draft, spec.activity) {
        return Ok(());
    }
    if !is_spec(spec) {
        return Ok(());
    }
    let number = reading::next_timer(setting, draft);
    draft.tell(&router_text::timer(alloc, number, spec.activity)?)?;
    change(setting, draft, Change::SetTimer { spec })?;
    Ok(())
}

/// Whether the moment is behind the clock, and one of those that there are.
fn is_ahead<B: Base>(base: &B, draft: &Draft, until: u64) -> bool
    ensures { result ≡ (nat_lt (laid (B.state base.now) draft.now).clock until && nat_le until last_moment) }
{
    reading::clock(base, draft) < until && until <= CLOCK_LIMIT
}

/// A head event that an entity has received is suspended until a moment that comes.
pub(crate) fn suspend_head<S: Setting>(
    alloc: Global,
    setting: &S,
    draft: &mut Draft,
    activity: ActivityId,
    until: u64,
) -> Result<(), NoMemory>
    requires made { CanBeMade (S.state setting.now) draft.old }
    ensures state { OnOk result (laid (S.state setting.now) draft.new ≡ (if not (is_undelivered (laid (S.state setting.now) draft.old).delivered activity.0) && (nat_lt (laid (S.state setting.now) draft.old).clock until && nat_le until last_moment) then after_change (changes.Hold activity until) (laid (S.state setting.now) draft.old) else (laid (S.state setting.now) draft.old))) }
    ensures lines { OnOk result (draft.new.lines ≡ draft.old.lines ++ (if not (is_undelivered (laid (S.state setting.now) draft.old).delivered activity.0) && (nat_lt (laid (S.state setting.now) draft.old).clock until && nat_le until last_moment) then lines_of_suspended (laid (S.state setting.now) draft.old) activity.0 until else [])) }
    ensures made { OnOk result (CanBeMade (S.state setting.now) draft.new) }
{
    if reading::is_undelivered(setting, draft, activity) {
        return Ok(());
    }
    if !is_ahead(setting, draft, until) {
        return Ok(());
    }
    suspend(alloc, setting, draft, activity, until)?;
    Ok(())
}

/// The suspension on an activity that is there ends.
pub(crate) fn resume_head<S: Setting>(
    alloc: Global,
    setting: &S,
    draft: &mut Draft,
    activity: ActivityId,
) -> Result<(), NoMemory>
    requires made { CanBeMade (S.state setting.now) draft.old }
    ensures state { OnOk result (laid (S.state setting.now) draft.new ≡ (if has_activity (laid (S.state setting.now) draft.old).activities activity.0 then resumed (laid (S.state setting.now) draft.old) activity.0 else (laid (S.state setting.now) draft.old))) }
    ensures lines { OnOk result (draft.new.lines ≡ draft.old.lines ++ (if has_activity (laid (S.state setting.now) draft.old).activities activity.0 then lines_of_resumed (laid (S.state setting.now) draft.old) activity.0 else [])) }
    ensures made { OnOk result (CanBeMade (S.state setting.now) draft.new) }
{
    if !has_activity(setting, draft, activity) {
        return Ok(());
    }
    resume(alloc, setting, draft, activity)?;
    Ok(())
}

/// A timer goes, where it is there.
pub(crate) fn cancel_timer<S: Setting>(
    setting: &S,
    draft: &mut Draft,
    timer: TimerId,
) -> Result<(), NoMemory>
    requires made { CanBeMade (S.state setting.now) draft.old }
    ensures state { OnOk result (laid (S.state setting.now) draft.new ≡ after_change (changes.Cancel timer) (laid (S.state setting.now) draft.old)) }
    ensures lines { OnOk result (draft.new.lines ≡ draft.old.lines) }
    ensures made { OnOk result (CanBeMade (S.state setting.now) draft.new) }
{
    change(setting, draft, Change::Cancel { timer })?;
    Ok(())
}
