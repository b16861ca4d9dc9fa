//! Steps that attach to activities and mask events there.
ghost use Rattle.std.specs.Prelude.{◌≡◌, ◌≤◌};
ghost use Rattle.script_types.specs.Program as p;
ghost use Rattle.script_types.specs.ProgramOf.{term_of};
ghost use Rattle.script_meaning.specs.Doing.{who, on_activities};
ghost use Rattle.script_types.specs.Numbers.{IsNumbered, IsNumberedTerm};
ghost use Rattle.script_run_machine.specs.Agreeing.{Agrees};
ghost use Rattle.script_run_machine.specs.Settings.{setting_of};

use script_meaning::FailKind;
use script_run_machine::{Machine, Scene, Stop};
use script_run_reads::{attached, used, used_active};
use script_run_terms::eval_activity;
use script_types::{Symbol, Term, Who};
use slee_effect::{Effect, Ref};
use slee_value::Text;

/// The entity itself or a child.
fn who(machine: &Machine, scene: &Scene, someone: Who) -> Result<Ref, Stop>
    ensures { Agrees (who (setting_of scene.now) someone) machine.now machine.now result }
{
    match someone {
        Who::Own => Ok(scene.me),
        Who::Child(place) => machine.child(scene, place),
    }
}

/// `attach WHO to e;`
pub(crate) fn attach(
    machine: &mut Machine,
    scene: &Scene,
    someone: Who,
    term: &Term,
) -> Result<(), Stop>
    requires names { machine.old.names ≡ scene.now.names.now }
    requires term { IsNumberedTerm scene.now.names.now (term_of term.now) }
    ensures agrees { Agrees (on_activities (setting_of scene.now) (p.Attach someone (term_of term.now))) machine.old machine.new result }
    ensures spent { machine.new.left ≤ machine.old.left }
    ensures names { machine.new.names ≡ machine.old.names }
{
    let entity = who(machine, scene, someone)?;
    let activity = eval_activity(machine, scene, term)?;
    used_active(machine, scene, activity)?;
    machine.add_effect(Effect::Attach { entity, activity })
}

/// `detach WHO from e;`
pub(crate) fn detach(
    machine: &mut Machine,
    scene: &Scene,
    someone: Who,
    term: &Term,
) -> Result<(), Stop>
    requires names { machine.old.names ≡ scene.now.names.now }
    requires term { IsNumberedTerm scene.now.names.now (term_of term.now) }
    ensures agrees { Agrees (on_activities (setting_of scene.now) (p.Detach someone (term_of term.now))) machine.old machine.new result }
    ensures spent { machine.new.left ≤ machine.old.left }
    ensures names { machine.new.names ≡ machine.old.names }
{
    let entity = who(machine, scene, someone)?;
    let activity = eval_activity(machine, scene, term)?;
    used(machine, scene, activity)?;
    machine.add_effect(Effect::Detach { entity, activity })
}

/// `mask TEXT on e;` and `unmask TEXT on e;`
pub(crate) fn set_mask(
    machine: &mut Machine,
    scene: &Scene,
    event: &Symbol<Text>,
    on: bool,
    term: &Term,
) -> Result<(), Stop>
    requires names { machine.old.names ≡ scene.now.names.now }
    requires event { IsNumbered scene.now.names.now event.now }
    requires term { IsNumberedTerm scene.now.names.now (term_of term.now) }
    ensures agrees { Agrees (on_activities (setting_of scene.now) (p.Mask event.now on (term_of term.now))) machine.old machine.new result }
    ensures spent { machine.new.left ≤ machine.old.left }
    ensures names { machine.new.names ≡ machine.old.names }
{
    let activity = eval_activity(machine, scene, term)?;
    used(machine, scene, activity)?;
    if !attached(machine, scene, activity)? {
        return Err(Stop::Broken(FailKind::Detached));
    }
    let number = event.number;
    let effect = Effect::SetMask {
        entity: scene.me,
        activity,
        event: event.name.copy(scene.alloc)?,
        on,
    };
    machine.add_numbered_effect(effect, number)
}
