//! Steps that give a value to something.
ghost use Rattle.std.specs.Prelude.{◌≡◌, ◌≤◌, true, false};
ghost use Rattle.script_types.specs.Program as p;
ghost use Rattle.script_types.specs.ProgramOf.{term_of, assigning_of};
ghost use Rattle.script_meaning.specs.Running.{Gave, ticked};
ghost use Rattle.script_meaning.specs.Doing.{assigns};
ghost use Rattle.script_types.specs.Numbers.{IsNumbered, IsNumberedAssigning, IsNumberedTerm};
ghost use Rattle.script_run_machine.specs.Agreeing.{Agrees};
ghost use Rattle.script_run_machine.specs.Machines.{state_of};
ghost use Rattle.script_run_machine.specs.Settings.{setting_of};

use crate::names::text_of_name;
use script_run_machine::{Machine, Scene, Stop, Variable};
use script_run_reads::used;
use script_run_terms::{
    calculated_at_hand, eval, eval_activity, eval_calculated, eval_joined, is_calculated, is_joined,
};
use script_types::{Assigning, Symbol, Term};
use slee_effect::Effect;
use slee_value::{Name, Text};

/// `let NAME = e;`
#[inline(always)]
fn declare_value(machine: &mut Machine, scene: &Scene, term: &Term) -> Result<(), Stop>
    requires names { machine.old.names ≡ scene.now.names.now }
    requires term { IsNumberedTerm scene.now.names.now (term_of term.now) }
    ensures agrees { Agrees (assigns (setting_of scene.now) (p.New (term_of term.now))) machine.old machine.new result }
    ensures spent { machine.new.left ≤ machine.old.left }
    ensures names { machine.new.names ≡ machine.old.names }
{
    if is_calculated(term) {
        let number = eval_calculated(machine, scene, term)?;
        return machine.declare_number(number);
    }
    let x = eval(machine, scene, term)?;
    machine.declare(Variable::of_value(x))
}

/// `NAME = e;`
#[inline(always)]
fn assign_value(machine: &mut Machine, scene: &Scene, place: usize, term: &Term) -> Result<(), Stop>
    requires names { machine.old.names ≡ scene.now.names.now }
    requires term { IsNumberedTerm scene.now.names.now (term_of term.now) }
    ensures agrees { Agrees (assigns (setting_of scene.now) (p.Variable place (term_of term.now))) machine.old machine.new result }
    ensures spent { machine.new.left ≤ machine.old.left }
    ensures names { machine.new.names ≡ machine.old.names }
{
    if is_calculated(term) {
        let number = eval_calculated(machine, scene, term)?;
        return machine.assign_number(place, number);
    }
    if is_joined(term) {
        let text = eval_joined(machine, scene, term)?;
        return machine.assign_text(place, text);
    }
    let x = eval(machine, scene, term)?;
    machine.assign(place, x)
}

/// `self.NAME = e;`
#[inline(never)]
fn set_field(
    machine: &mut Machine,
    scene: &Scene,
    name: &Symbol<Name>,
    term: &Term,
) -> Result<(), Stop>
    requires names { machine.old.names ≡ scene.now.names.now }
    requires name { IsNumbered scene.now.names.now name.now }
    requires term { IsNumberedTerm scene.now.names.now (term_of term.now) }
    ensures agrees { Agrees (assigns (setting_of scene.now) (p.Field name.now (term_of term.now))) machine.old machine.new result }
    ensures spent { machine.new.left ≤ machine.old.left }
    ensures names { machine.new.names ≡ machine.old.names }
{
    let value = eval(machine, scene, term)?;
    let number = name.number;
    let name = text_of_name(scene.alloc, &name.name)?;
    let effect = Effect::SetField {
        entity: scene.me,
        name,
        value,
    };
    machine.add_numbered_effect(effect, number)
}

/// `attr(e, NAME) = e;`
#[inline(never)]
fn set_attribute(
    machine: &mut Machine,
    scene: &Scene,
    place: &Term,
    key: &Symbol<Text>,
    term: &Term,
) -> Result<(), Stop>
    requires names { machine.old.names ≡ scene.now.names.now }
    requires place { IsNumberedTerm scene.now.names.now (term_of place.now) }
    requires key { IsNumbered scene.now.names.now key.now }
    requires term { IsNumberedTerm scene.now.names.now (term_of term.now) }
    ensures agrees { Agrees (assigns (setting_of scene.now) (p.Attribute (term_of place.now) key.now (term_of term.now))) machine.old machine.new result }
    ensures spent { machine.new.left ≤ machine.old.left }
    ensures names { machine.new.names ≡ machine.old.names }
{
    let activity = eval_activity(machine, scene, place)?;
    let value = eval(machine, scene, term)?;
    used(machine, scene, activity)?;
    let number = key.number;
    let key = key.name.copy(scene.alloc)?;
    let effect = Effect::SetAttr {
        activity,
        key,
        value,
    };
    machine.add_numbered_effect(effect, number)
}

/// Does a step that gives a variable what an operator gives between operands at hand, with all its units. Answers whether it did;
/// where not, nothing is done.
#[inline(always)]
pub fn assign_at_hand(machine: &mut Machine, scene: &Scene, step: &Assigning) -> bool
    ensures done { result ≡ true → ticked (assigns (setting_of scene.now) (assigning_of step.now)) (state_of machine.old) ≡ Gave tt (state_of machine.new) }
    ensures undone { result ≡ false → machine.new ≡ machine.old }
    ensures spent { machine.new.left ≤ machine.old.left }
    ensures names { machine.new.names ≡ machine.old.names }
{
    let Assigning::Variable(place, term) = step else {
        return false;
    };
    let Term::Chain(first, more) = term else {
        return false;
    };
    if !more.is_empty() {
        return false;
    }
    // A unit each for the step, the operator and its two operands.
    match calculated_at_hand(machine, first) {
        Some(number) => machine.try_assign_number(4, *place, number),
        None => false,
    }
}

/// A step that gives a value to something.
#[inline(always)]
pub fn do_assigning(machine: &mut Machine, scene: &Scene, step: &Assigning) -> Result<(), Stop>
    requires names { machine.old.names ≡ scene.now.names.now }
    requires step { IsNumberedAssigning scene.now.names.now (assigning_of step.now) }
    ensures agrees { Agrees (assigns (setting_of scene.now) (assigning_of step.now)) machine.old machine.new result }
    ensures spent { machine.new.left ≤ machine.old.left }
    ensures names { machine.new.names ≡ machine.old.names }
{
    match step {
        Assigning::New(term) => declare_value(machine, scene, term),
        Assigning::Variable(place, term) => assign_value(machine, scene, *place, term),
        Assigning::Field(name, term) => set_field(machine, scene, name, term),
        Assigning::Attribute(place, key, term) => set_attribute(machine, scene, place, key, term),
    }
}
