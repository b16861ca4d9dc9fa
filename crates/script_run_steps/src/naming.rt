//! Steps that give names to activities and take them back.
ghost use Rattle.std.specs.Prelude.{◌≡◌, ◌≤◌};
ghost use Rattle.script_types.specs.Program as p;
ghost use Rattle.script_types.specs.ProgramOf.{term_of};
ghost use Rattle.script_meaning.specs.Doing.{on_activities};
ghost use Rattle.script_types.specs.Numbers.{IsNumberedTerm};
ghost use Rattle.script_run_machine.specs.Agreeing.{Agrees};
ghost use Rattle.script_run_machine.specs.Settings.{setting_of};

use script_meaning::FailKind;
use script_run_machine::{Machine, Scene, Stop};
use script_run_reads::{named, used_active};
use script_run_terms::{eval_activity, eval_text};
use script_types::Term;
use slee_effect::Effect;

/// `bind e to e;`
pub(crate) fn bind(
    machine: &mut Machine,
    scene: &Scene,
    key: &Term,
    term: &Term,
) -> Result<(), Stop>
    requires names { machine.old.names ≡ scene.now.names.now }
    requires key { IsNumberedTerm scene.now.names.now (term_of key.now) }
    requires term { IsNumberedTerm scene.now.names.now (term_of term.now) }
    ensures agrees { Agrees (on_activities (setting_of scene.now) (p.Bind (term_of key.now) (term_of term.now))) machine.old machine.new result }
    ensures spent { machine.new.left ≤ machine.old.left }
    ensures names { machine.new.names ≡ machine.old.names }
{
    let name = eval_text(machine, scene, key)?;
    let activity = eval_activity(machine, scene, term)?;
    if name.is_empty() {
        return Err(Stop::Broken(FailKind::Range));
    }
    used_active(machine, scene, activity)?;
    if named(machine, scene, &name)?.is_some() {
        return Err(Stop::Broken(FailKind::Bound));
    }
    machine.add_effect(Effect::Bind { name, activity })
}

/// `unbind e;`
pub(crate) fn unbind(machine: &mut Machine, scene: &Scene, key: &Term) -> Result<(), Stop>
    requires names { machine.old.names ≡ scene.now.names.now }
    requires key { IsNumberedTerm scene.now.names.now (term_of key.now) }
    ensures agrees { Agrees (on_activities (setting_of scene.now) (p.Unbind (term_of key.now))) machine.old machine.new result }
    ensures spent { machine.new.left ≤ machine.old.left }
    ensures names { machine.new.names ≡ machine.old.names }
{
    let name = eval_text(machine, scene, key)?;
    if named(machine, scene, &name)?.is_none() {
        return Err(Stop::Broken(FailKind::Unbound));
    }
    machine.add_effect(Effect::Unbind { name })
}
