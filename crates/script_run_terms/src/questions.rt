//! What is asked of one value.
ghost use Rattle.std.specs.Prelude.{◌≡◌, ◌≤◌};
ghost use Rattle.script_types.specs.declared.term.Atom.TheVariants as a;
ghost use Rattle.script_types.specs.declared.term.Question.TheVariants as q;
ghost use Rattle.script_meaning.specs.Terms.{ask};
ghost use Rattle.script_meaning.specs.Values.{int, flag};
ghost use Rattle.script_types.specs.Numbers.{IsNumberedQuestion};
ghost use Rattle.script_run_machine.specs.Agreeing.{AgreesAs, EndsFinding};
ghost use Rattle.script_run_machine.specs.Lending.{value_lent, value_at, standing};
ghost use Rattle.script_run_machine.specs.Machines.{state_of};
ghost use Rattle.script_run_machine.specs.Settings.{setting_of};
ghost use Rattle.script_run_terms.specs.Links.{measured};

use crate::asked_activities::{
    ask_active, ask_attached, ask_attribute, ask_attribute_scalar, ask_masked,
};
use crate::asked_names::{ask_bound, ask_lookup};
use crate::asked_rows::{ask_has_profile, ask_profile};
use crate::asked_timers::ask_has_timer;
use crate::atoms::{made_flag, made_number};
use script_run_machine::{Lent, Machine, Place, Scalar, Scene, Stop, flag_of, int_of, text_of};
use script_types::Question;

/// `not e`
#[tactic(auto, using(script_run_machine::proofs::KindLemmas::no_flag_stays))]
fn negate(machine: &Machine, scene: &Scene, x: Lent) -> Result<bool, Stop>
    ensures { AgreesAs flag (ask (setting_of scene.now) q.Not (value_lent x.entry)) machine.now machine.now result }
{
    Ok(!flag_of(x)?)
}

/// `len(e)`
#[tactic(auto, using(script_run_machine::proofs::KindLemmas::no_text_stays))]
fn measure(machine: &Machine, scene: &Scene, x: Lent) -> Result<i64, Stop>
    ensures { AgreesAs int (ask (setting_of scene.now) q.Len (value_lent x.entry)) machine.now machine.now result }
{
    let length = text_of(x)?.len();
    Ok(length as i64)
}

/// How many bytes the text has that the variable in this place holds.
pub(crate) fn slot_length(machine: &Machine, scene: &Scene, place: usize) -> Result<i64, Stop>
    ensures { AgreesAs int (measured (setting_of scene.now) (a.Slot place)) machine.now machine.now result }
{
    let value = machine.variable_value(place)?;
    measure(machine, scene, Lent::Set(value))
}

/// `-e`
#[tactic(auto, using(script_run_machine::proofs::KindLemmas::no_int_stays))]
fn negative(machine: &Machine, scene: &Scene, x: Lent) -> Result<i64, Stop>
    ensures { AgreesAs int (ask (setting_of scene.now) q.Negative (value_lent x.entry)) machine.now machine.now result }
{
    machine.negative(int_of(x)?)
}

/// Where that stands which is asked of the value in a place.
pub(crate) fn ask<'a>(
    machine: &mut Machine,
    scene: &Scene<'a>,
    question: &Question,
    x: &Place,
) -> Result<Place<'a>, Stop>
    requires names { machine.old.names ≡ scene.now.names.now }
    requires question { IsNumberedQuestion scene.now.names.now question.now }
    ensures agrees { AgreesAs (value_at (standing machine.new)) (ask (setting_of scene.now) question.now (value_at (standing machine.old) x.now)) machine.old machine.new result }
    ensures spent { machine.new.left ≤ machine.old.left }
    ensures names { machine.new.names ≡ machine.old.names }
    ensures kept { standing machine.new ≡ standing machine.old }
{
    let alloc = scene.alloc;
    match question {
        Question::Negative => Ok(made_number(negative(machine, scene, machine.lend(x))?)),
        Question::Not => Ok(made_flag(negate(machine, scene, machine.lend(x))?)),
        Question::TextOfInt => Ok(Place::Made(machine.text_of_int(alloc, machine.lend(x))?)),
        Question::TextOfBool => Ok(Place::Made(machine.text_of_bool(alloc, machine.lend(x))?)),
        Question::Len => Ok(made_number(measure(machine, scene, machine.lend(x))?)),
        Question::Active => Ok(made_flag(ask_active(machine, scene, x)?)),
        Question::Attached => Ok(made_flag(ask_attached(machine, scene, x)?)),
        Question::Masked(event) => Ok(made_flag(ask_masked(machine, scene, event, x)?)),
        Question::Attribute(key, kind) => ask_attribute(machine, scene, key, *kind, x),
        Question::Bound => Ok(made_flag(ask_bound(machine, scene, x)?)),
        Question::Lookup => Ok(Place::Made(ask_lookup(machine, scene, x)?)),
        Question::Profile(table, name, kind) => ask_profile(machine, scene, table, name, *kind, x),
        Question::HasProfile(table) => Ok(made_flag(ask_has_profile(machine, scene, table, x)?)),
        Question::HasTimer => Ok(made_flag(ask_has_timer(machine, scene, x)?)),
    }
}

/// The number or truth value that is given where something is asked of the value in a place, if it is one.
pub(crate) fn ask_scalar<T: Scalar>(
    machine: &mut Machine,
    scene: &Scene,
    question: &Question,
    x: &Place,
) -> Result<Option<T>, Stop>
    requires names { machine.old.names ≡ scene.now.names.now }
    requires question { IsNumberedQuestion scene.now.names.now question.now }
    ensures finds { EndsFinding T.value_of T.is_other (ask (setting_of scene.now) question.now (value_at (standing machine.old) x.now) (state_of machine.old)) machine.new result }
    ensures spent { machine.new.left ≤ machine.old.left }
    ensures names { machine.new.names ≡ machine.old.names }
    ensures kept { standing machine.new ≡ standing machine.old }
{
    match question {
        Question::Attribute(key, kind) => ask_attribute_scalar(machine, scene, key, *kind, x),
        _ => {
            let place = ask(machine, scene, question, x)?;
            Ok(T::within(machine.lend(&place)))
        }
    }
}
