//! Steps that say something or end the script.
ghost use Rattle.std.specs.Prelude.{◌≡◌, ◌≤◌};
ghost use Rattle.script_types.specs.Program as p;
ghost use Rattle.script_types.specs.ProgramOf.{term_of, saying_of};
ghost use Rattle.script_meaning.specs.Steps.{says};
ghost use Rattle.script_types.specs.Numbers.{IsNumberedSaying, IsNumberedTerm};
ghost use Rattle.script_run_machine.specs.Agreeing.{AgreesAs};
ghost use Rattle.script_run_machine.specs.Settings.{setting_of};
ghost use Rattle.script_run_steps.specs.Flows.{flow_of};

use crate::Flow;
use script_run_machine::{Machine, Scene, Stop};
use script_run_terms::{eval, eval_int, eval_text};
use script_types::{Saying, Term};
use slee_effect::Effect;
use slee_value::Text;

/// `emit e;`
fn emit(machine: &mut Machine, scene: &Scene, term: &Term) -> Result<Flow, Stop>
    requires names { machine.old.names ≡ scene.now.names.now }
    requires term { IsNumberedTerm scene.now.names.now (term_of term.now) }
    ensures agrees { AgreesAs flow_of (says (setting_of scene.now) (p.Emit (term_of term.now))) machine.old machine.new result }
    ensures spent { machine.new.left ≤ machine.old.left }
    ensures names { machine.new.names ≡ machine.old.names }
{
    let text = eval_text(machine, scene, term)?;
    machine.add_effect(Effect::Emit {
        entity: scene.me,
        text,
    })?;
    Ok(Flow::Next)
}

/// `usage NAME e;`
fn count_usage(machine: &mut Machine, scene: &Scene, name: &Text, term: &Term) -> Result<Flow, Stop>
    requires names { machine.old.names ≡ scene.now.names.now }
    requires term { IsNumberedTerm scene.now.names.now (term_of term.now) }
    ensures agrees { AgreesAs flow_of (says (setting_of scene.now) (p.Usage name.now (term_of term.now))) machine.old machine.new result }
    ensures spent { machine.new.left ≤ machine.old.left }
    ensures names { machine.new.names ≡ machine.old.names }
{
    let amount = eval_int(machine, scene, term)?;
    let name = name.copy(scene.alloc)?;
    machine.add_effect(Effect::Usage {
        entity: scene.me,
        name,
        amount,
    })?;
    Ok(Flow::Next)
}

/// A step that says something or ends the script.
#[inline(never)]
pub fn do_saying(machine: &mut Machine, scene: &Scene, step: &Saying) -> Result<Flow, Stop>
    requires names { machine.old.names ≡ scene.now.names.now }
    requires step { IsNumberedSaying scene.now.names.now (saying_of step.now) }
    ensures agrees { AgreesAs flow_of (says (setting_of scene.now) (saying_of step.now)) machine.old machine.new result }
    ensures spent { machine.new.left ≤ machine.old.left }
    ensures names { machine.new.names ≡ machine.old.names }
{
    match step {
        Saying::Emit(term) => emit(machine, scene, term),
        Saying::Usage(name, term) => count_usage(machine, scene, name, term),
        Saying::Return(term) => {
            let value = eval(machine, scene, term)?;
            Ok(Flow::Returned(machine.put_in_box(scene.alloc, value)?))
        }
        Saying::Throw(term) => {
            let text = eval_text(machine, scene, term)?;
            Err(Stop::Thrown(Box::new(scene.alloc, text)?))
        }
        Saying::Rollback => {
            machine.ask_rollback();
            Ok(Flow::Next)
        }
    }
}
