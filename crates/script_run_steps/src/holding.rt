//! Steps that hold an activity's delivery back and let it go on.
ghost use Rattle.std.specs.Prelude.{◌≡◌, ◌≤◌};
ghost use Rattle.script_types.specs.Program as p;
ghost use Rattle.script_types.specs.ProgramOf.{term_of};
ghost use Rattle.script_meaning.specs.Doing.{on_activities};
ghost use Rattle.script_types.specs.Numbers.{IsNumberedTerm};
ghost use Rattle.script_run_machine.specs.Agreeing.{Agrees};
ghost use Rattle.script_run_machine.specs.Settings.{setting_of};

use crate::ranges::{LAST_MOMENT, is_within, moment_behind};
use script_meaning::FailKind;
use script_run_machine::{Machine, Scene, Stop};
use script_run_reads::{now, used};
use script_run_terms::{eval_activity, eval_int};
use script_types::Term;
use slee_effect::{Effect, Ref};

/// `suspend e;`
pub(crate) fn suspend(machine: &mut Machine, scene: &Scene, term: &Term) -> Result<(), Stop>
    requires names { machine.old.names ≡ scene.now.names.now }
    requires term { IsNumberedTerm scene.now.names.now (term_of term.now) }
    ensures agrees { Agrees (on_activities (setting_of scene.now) (p.Suspend (term_of term.now))) machine.old machine.new result }
    ensures spent { machine.new.left ≤ machine.old.left }
    ensures names { machine.new.names ≡ machine.old.names }
{
    let span = eval_int(machine, scene, term)?;
    if !is_within(1, LAST_MOMENT, span) {
        return Err(Stop::Broken(FailKind::Range));
    }
    let time = now(machine, scene)?;
    let Some(until) = moment_behind(time, span) else {
        return Err(Stop::Broken(FailKind::Range));
    };
    machine.add_effect(Effect::Suspend {
        activity: Ref::Known(scene.arguments.activity.0),
        until,
    })
}

/// `resume e;`
pub(crate) fn resume(machine: &mut Machine, scene: &Scene, term: &Term) -> Result<(), Stop>
    requires names { machine.old.names ≡ scene.now.names.now }
    requires term { IsNumberedTerm scene.now.names.now (term_of term.now) }
    ensures agrees { Agrees (on_activities (setting_of scene.now) (p.Resume (term_of term.now))) machine.old machine.new result }
    ensures spent { machine.new.left ≤ machine.old.left }
    ensures names { machine.new.names ≡ machine.old.names }
{
    let activity = eval_activity(machine, scene, term)?;
    used(machine, scene, activity)?;
    machine.add_effect(Effect::Resume { activity })
}
