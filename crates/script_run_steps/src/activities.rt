//! Steps on activities.
ghost use Rattle.std.specs.Prelude.{◌≡◌, ◌≤◌};
ghost use Rattle.script_types.specs.Program as p;
ghost use Rattle.script_types.specs.ProgramOf.{term_of, on_activities_of};
ghost use Rattle.script_meaning.specs.Doing.{on_activities};
ghost use Rattle.script_types.specs.Numbers.{IsNumberedOnActivities, IsNumberedTerm};
ghost use Rattle.script_run_machine.specs.Agreeing.{Agrees};
ghost use Rattle.script_run_machine.specs.Settings.{setting_of};
ghost use Rattle.script_run_steps.specs.Firing.{FiresOnce};

use crate::attaching::{attach, detach, set_mask};
use crate::firing::fire;
use crate::holding::{resume, suspend};
use crate::naming::{bind, unbind};
use script_meaning::FailKind;
use script_run_machine::{Machine, Scene, Stop, Variable};
use script_run_reads::{Thing, next_number, used_active};
use script_run_terms::eval_activity;
use script_types::{OnActivities, Term};
use slee_effect::{Effect, Val};

/// `null as NAME;`
fn make_null(machine: &mut Machine, scene: &Scene) -> Result<(), Stop>
    requires names { machine.old.names ≡ scene.now.names.now }
    ensures agrees { Agrees (on_activities (setting_of scene.now) p.Null) machine.old machine.new result }
    ensures spent { machine.new.left ≤ machine.old.left }
    ensures names { machine.new.names ≡ machine.old.names }
{
    let number = next_number(machine, scene, Thing::Activity);
    machine.add_effect(Effect::NewNull)?;
    machine.declare(Variable::of_value(Val::NewActivity(number)))
}

/// `end e;`
fn end_null(machine: &mut Machine, scene: &Scene, term: &Term) -> Result<(), Stop>
    requires names { machine.old.names ≡ scene.now.names.now }
    requires term { IsNumberedTerm scene.now.names.now (term_of term.now) }
    ensures agrees { Agrees (on_activities (setting_of scene.now) (p.End (term_of term.now))) machine.old machine.new result }
    ensures spent { machine.new.left ≤ machine.old.left }
    ensures names { machine.new.names ≡ machine.old.names }
{
    let activity = eval_activity(machine, scene, term)?;
    if !used_active(machine, scene, activity)?.null {
        return Err(Stop::Broken(FailKind::NotNull));
    }
    machine.add_effect(Effect::EndNull { activity })
}

/// A step on activities.
#[inline(never)]
pub fn do_on_activities(
    machine: &mut Machine,
    scene: &Scene,
    step: &OnActivities,
) -> Result<(), Stop>
    requires names { machine.old.names ≡ scene.now.names.now }
    requires step { IsNumberedOnActivities scene.now.names.now (on_activities_of step.now) }
    requires once { FiresOnce (on_activities_of step.now) }
    ensures agrees { Agrees (on_activities (setting_of scene.now) (on_activities_of step.now)) machine.old machine.new result }
    ensures spent { machine.new.left ≤ machine.old.left }
    ensures names { machine.new.names ≡ machine.old.names }
{
    match step {
        OnActivities::Attach(someone, term) => attach(machine, scene, *someone, term),
        OnActivities::Detach(someone, term) => detach(machine, scene, *someone, term),
        OnActivities::Mask(event, on, term) => set_mask(machine, scene, event, *on, term),
        OnActivities::Fire(event, term, service, fields) => {
            fire(machine, scene, event, term, service, fields)
        }
        OnActivities::Null => make_null(machine, scene),
        OnActivities::End(term) => end_null(machine, scene, term),
        OnActivities::Bind(key, term) => bind(machine, scene, key, term),
        OnActivities::Unbind(key) => unbind(machine, scene, key),
        OnActivities::Suspend(term) => suspend(machine, scene, term),
        OnActivities::Resume(term) => resume(machine, scene, term),
    }
}
