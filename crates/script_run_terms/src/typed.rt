//! Terms whose type is known.
ghost use Rattle.std.specs.Prelude.{◌≡◌, ◌≤◌};
ghost use Rattle.script_meaning.specs.Doing.{int_of, text_of, activity_of, timer_of};
ghost use Rattle.script_types.specs.ProgramOf.{term_of};
ghost use Rattle.script_types.specs.Numbers.{IsNumberedTerm};
ghost use Rattle.script_run_machine.specs.Agreeing.{Agrees};
ghost use Rattle.script_run_machine.specs.Settings.{setting_of};

use crate::numbers::eval_number;
use crate::terms::{eval, find};
use script_run_machine::{Machine, Scene, Stop, activity_of, timer_of};
use script_types::Term;
use slee_effect::{Ref, Val};
use slee_value::{Text, Value};

/// What a term gives that is a number.
#[tactic(auto, using(script_run_machine::proofs::KindLemmas::no_int_stays))]
pub fn eval_int(machine: &mut Machine, scene: &Scene, term: &Term) -> Result<i64, Stop>
    requires names { machine.old.names ≡ scene.now.names.now }
    requires term { IsNumberedTerm scene.now.names.now (term_of term.now) }
    ensures agrees { Agrees (int_of (setting_of scene.now) (term_of term.now)) machine.old machine.new result }
    ensures spent { machine.new.left ≤ machine.old.left }
    ensures names { machine.new.names ≡ machine.old.names }
{
    match eval_number(machine, scene, term)? {
        Some(number) => Ok(number),
        None => Err(Stop::Unchecked),
    }
}

/// What a term gives that is a text.
pub fn eval_text(machine: &mut Machine, scene: &Scene, term: &Term) -> Result<Text, Stop>
    requires names { machine.old.names ≡ scene.now.names.now }
    requires term { IsNumberedTerm scene.now.names.now (term_of term.now) }
    ensures agrees { Agrees (text_of (setting_of scene.now) (term_of term.now)) machine.old machine.new result }
    ensures spent { machine.new.left ≤ machine.old.left }
    ensures names { machine.new.names ≡ machine.old.names }
{
    match eval(machine, scene, term)? {
        Val::Plain(Value::Text(text)) => Ok(text),
        _ => Err(Stop::Unchecked),
    }
}

/// What a term gives that is an activity.
#[tactic(auto, using(script_run_machine::proofs::KindLemmas::no_activity_stays, script_run_machine::proofs::KindLemmas::activity_given))]
pub fn eval_activity(machine: &mut Machine, scene: &Scene, term: &Term) -> Result<Ref, Stop>
    requires names { machine.old.names ≡ scene.now.names.now }
    requires term { IsNumberedTerm scene.now.names.now (term_of term.now) }
    ensures agrees { Agrees (activity_of (setting_of scene.now) (term_of term.now)) machine.old machine.new result }
    ensures spent { machine.new.left ≤ machine.old.left }
    ensures names { machine.new.names ≡ machine.old.names }
{
    let x = find(machine, scene, term)?;
    activity_of(machine.lend(&x))
}

/// What a term gives that is a timer.
#[tactic(auto, using(script_run_machine::proofs::KindLemmas::no_timer_stays, script_run_machine::proofs::KindLemmas::timer_given))]
pub fn eval_timer(machine: &mut Machine, scene: &Scene, term: &Term) -> Result<Ref, Stop>
    requires names { machine.old.names ≡ scene.now.names.now }
    requires term { IsNumberedTerm scene.now.names.now (term_of term.now) }
    ensures agrees { Agrees (timer_of (setting_of scene.now) (term_of term.now)) machine.old machine.new result }
    ensures spent { machine.new.left ≤ machine.old.left }
    ensures names { machine.new.names ≡ machine.old.names }
{
    let x = find(machine, scene, term)?;
    timer_of(machine.lend(&x))
}
