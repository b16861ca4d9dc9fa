//! Steps on timers.
ghost use Rattle.std.specs.Prelude.{◌≡◌, ◌≤◌};
ghost use Rattle.script_types.specs.Program as p;
ghost use Rattle.script_types.specs.ProgramOf.{term_of, recurrence_of, on_timers_of};
ghost use Rattle.script_meaning.specs.Doing.{repeat_of, repeats_well, is_within, on_timers};
ghost use Rattle.script_types.specs.Numbers.{IsNumberedOnTimers, IsNumberedRepeat, IsNumberedTerm};
ghost use Rattle.script_run_machine.specs.Agreeing.{Agrees};
ghost use Rattle.script_run_machine.specs.Settings.{setting_of};

use crate::ranges::{LAST_MOMENT, is_within};
use script_meaning::FailKind;
use script_run_machine::{Machine, Scene, Stop, Variable};
use script_run_reads::{Thing, next_number, used_active};
use script_run_terms::{eval_activity, eval_int, eval_timer};
use script_types::{OnTimers, Recurrence, Term, TimerStart};
use slee_effect::{Effect, Val};

/// The period of a timer, and how many times it occurs. One without them occurs once.
fn repeat_of(
    machine: &mut Machine,
    scene: &Scene,
    repeat: &Option<Recurrence>,
) -> Result<(i64, i64), Stop>
    requires names { machine.old.names ≡ scene.now.names.now }
    requires repeat { IsNumberedRepeat scene.now.names.now (recurrence_of repeat.now) }
    ensures agrees { Agrees (repeat_of (setting_of scene.now) (recurrence_of repeat.now)) machine.old machine.new result }
    ensures spent { machine.new.left ≤ machine.old.left }
    ensures names { machine.new.names ≡ machine.old.names }
{
    match repeat {
        None => Ok((0, 1)),
        Some(terms) => {
            let period = eval_int(machine, scene, &terms.period)?;
            let times = eval_int(machine, scene, &terms.times)?;
            Ok((period, times))
        }
    }
}

/// Whether period and times lie in their ranges.
fn repeats_well(repeat: &Option<Recurrence>, times: (i64, i64)) -> bool
    ensures { result ≡ repeats_well (recurrence_of repeat.now) times }
{
    match repeat {
        None => true,
        Some(_) => is_within(1, LAST_MOMENT, times.0) && is_within(0, LAST_MOMENT, times.1),
    }
}

/// `timer NAME on e at e every e times e keep all;`
fn start_timer(machine: &mut Machine, scene: &Scene, timer: &TimerStart) -> Result<(), Stop>
    requires names { machine.old.names ≡ scene.now.names.now }
    requires timer { IsNumberedOnTimers scene.now.names.now (p.Start (term_of timer.now.activity) (term_of timer.now.start) (recurrence_of timer.now.repeat) timer.now.keep) }
    ensures agrees { Agrees (on_timers (setting_of scene.now) (p.Start (term_of timer.now.activity) (term_of timer.now.start) (recurrence_of timer.now.repeat) timer.now.keep)) machine.old machine.new result }
    ensures spent { machine.new.left ≤ machine.old.left }
    ensures names { machine.new.names ≡ machine.old.names }
{
    let activity = eval_activity(machine, scene, &timer.activity)?;
    let start = eval_int(machine, scene, &timer.start)?;
    let times = repeat_of(machine, scene, &timer.repeat)?;
    if !(is_within(0, LAST_MOMENT, start) && repeats_well(&timer.repeat, times)) {
        return Err(Stop::Broken(FailKind::Range));
    }
    used_active(machine, scene, activity)?;
    let number = next_number(machine, scene, Thing::Timer);
    machine.add_effect(Effect::SetTimer {
        activity,
        start: start.unsigned_abs(),
        period: times.0.unsigned_abs(),
        times: times.1.unsigned_abs(),
        keep: timer.keep,
    })?;
    machine.declare(Variable::of_value(Val::NewTimer(number)))
}

/// `cancel e;`
fn cancel(machine: &mut Machine, scene: &Scene, term: &Term) -> Result<(), Stop>
    requires names { machine.old.names ≡ scene.now.names.now }
    requires term { IsNumberedTerm scene.now.names.now (term_of term.now) }
    ensures agrees { Agrees (on_timers (setting_of scene.now) (p.Cancel (term_of term.now))) machine.old machine.new result }
    ensures spent { machine.new.left ≤ machine.old.left }
    ensures names { machine.new.names ≡ machine.old.names }
{
    let timer = eval_timer(machine, scene, term)?;
    machine.add_effect(Effect::CancelTimer { timer })
}

/// A step on timers.
#[inline(never)]
pub fn do_on_timers(machine: &mut Machine, scene: &Scene, step: &OnTimers) -> Result<(), Stop>
    requires names { machine.old.names ≡ scene.now.names.now }
    requires step { IsNumberedOnTimers scene.now.names.now (on_timers_of step.now) }
    ensures agrees { Agrees (on_timers (setting_of scene.now) (on_timers_of step.now)) machine.old machine.new result }
    ensures spent { machine.new.left ≤ machine.old.left }
    ensures names { machine.new.names ≡ machine.old.names }
{
    match step {
        OnTimers::Start(timer) => start_timer(machine, scene, timer),
        OnTimers::Cancel(term) => cancel(machine, scene, term),
    }
}
