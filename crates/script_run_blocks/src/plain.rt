//! Steps without blocks, behind which the next step comes.
ghost use Rattle.std.specs.Prelude.{◌≡◌, ◌≤◌};
ghost use Rattle.script_types.specs.ProgramOf.{assigning_of, on_entities_of, on_activities_of, on_timers_of};
ghost use Rattle.script_meaning.specs.Doing.{assigns, on_entities, on_activities, on_timers};
ghost use Rattle.script_meaning.specs.Steps.{next};
ghost use Rattle.script_types.specs.Numbers.{IsNumberedAssigning, IsNumberedOnActivities, IsNumberedOnEntities, IsNumberedOnTimers};
ghost use Rattle.script_run_machine.specs.Agreeing.{AgreesAs};
ghost use Rattle.script_run_machine.specs.Settings.{setting_of};
ghost use Rattle.script_run_steps.specs.Flows.{flow_of};
ghost use Rattle.script_run_steps.specs.Firing.{FiresOnce};

use script_run_machine::{Machine, Scene, Stop};
use script_run_steps::{Flow, do_assigning, do_on_activities, do_on_entities, do_on_timers};
use script_types::{Assigning, OnActivities, OnEntities, OnTimers};

/// A step that gives a value to something, and then the next one.
#[inline(always)]
pub(crate) fn assign(machine: &mut Machine, scene: &Scene, step: &Assigning) -> Result<Flow, Stop>
    requires names { machine.old.names ≡ scene.now.names.now }
    requires step { IsNumberedAssigning scene.now.names.now (assigning_of step.now) }
    ensures agrees { AgreesAs flow_of (next (assigns (setting_of scene.now) (assigning_of step.now))) machine.old machine.new result }
    ensures spent { machine.new.left ≤ machine.old.left }
    ensures names { machine.new.names ≡ machine.old.names }
{
    do_assigning(machine, scene, step)?;
    Ok(Flow::Next)
}

/// A step on child entities, and then the next one.
pub(crate) fn act_on_entities(
    machine: &mut Machine,
    scene: &Scene,
    step: &OnEntities,
) -> Result<Flow, Stop>
    requires names { machine.old.names ≡ scene.now.names.now }
    requires step { IsNumberedOnEntities scene.now.names.now (on_entities_of step.now) }
    ensures agrees { AgreesAs flow_of (next (on_entities (setting_of scene.now) (on_entities_of step.now))) machine.old machine.new result }
    ensures spent { machine.new.left ≤ machine.old.left }
    ensures names { machine.new.names ≡ machine.old.names }
{
    do_on_entities(machine, scene, step)?;
    Ok(Flow::Next)
}

/// A step on activities, and then the next one.
pub(crate) fn act_on_activities(
    machine: &mut Machine,
    scene: &Scene,
    step: &OnActivities,
) -> Result<Flow, Stop>
    requires names { machine.old.names ≡ scene.now.names.now }
    requires step { IsNumberedOnActivities scene.now.names.now (on_activities_of step.now) }
    requires once { FiresOnce (on_activities_of step.now) }
    ensures agrees { AgreesAs flow_of (next (on_activities (setting_of scene.now) (on_activities_of step.now))) machine.old machine.new result }
    ensures spent { machine.new.left ≤ machine.old.left }
    ensures names { machine.new.names ≡ machine.old.names }
{
    do_on_activities(machine, scene, step)?;
    Ok(Flow::Next)
}

/// A step on timers, and then the next one.
pub(crate) fn act_on_timers(
    machine: &mut Machine,
    scene: &Scene,
    step: &OnTimers,
) -> Result<Flow, Stop>
    requires names { machine.old.names ≡ scene.now.names.now }
    requires step { IsNumberedOnTimers scene.now.names.now (on_timers_of step.now) }
    ensures agrees { AgreesAs flow_of (next (on_timers (setting_of scene.now) (on_timers_of step.now))) machine.old machine.new result }
    ensures spent { machine.new.left ≤ machine.old.left }
    ensures names { machine.new.names ≡ machine.old.names }
{
    do_on_timers(machine, scene, step)?;
    Ok(Flow::Next)
}
