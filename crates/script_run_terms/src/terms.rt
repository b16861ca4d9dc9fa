//! Terms with all that stands in them. A term's unit is spent before its parts, and a value is lent where it stands.
ghost use Rattle.std.specs.Prelude.{◌≡◌, ◌≤◌, true};
ghost use Rattle.std.specs.List.{AllByRecursion};
ghost use Rattle.script_meaning.specs.Terms.{eval};
ghost use Rattle.script_meaning.specs.Values.{int, text};
ghost use Rattle.script_types.specs.ProgramOf.{term_of, ask_of, compare_of, combine_of};
ghost use Rattle.script_types.specs.Numbers.{IsNumberedQuestion, IsNumberedTerm};
ghost use Rattle.script_run_machine.specs.Agreeing.{Agrees, AgreesAs};
ghost use Rattle.script_run_machine.specs.Kinds.{is_arithmetic};
ghost use Rattle.script_run_machine.specs.Lending.{value_at, standing};
ghost use Rattle.script_run_machine.specs.Settings.{setting_of};
ghost use Rattle.script_run_terms.specs.Links.{chained, asked, is_calculated, is_joined};

use crate::asked_activities::own_attribute;
use crate::at_hand::number_at_hand;
use crate::atoms::{made_flag, single};
use crate::joins::text_chain;
use crate::numbers::{eval_compared, number_chain, number_chain_at_hand, truth_chain};
use crate::questions::ask;
use script_run_machine::{Lent, Machine, Place, Scene, Stop, is_arithmetic};
use script_types::{Atom, Joint, Question, Term, Test};
use slee_effect::Val;
use slee_value::{Text, Value};

/// What a term gives. Many an argument is a number at hand.
#[inline(always)]
pub fn eval(machine: &mut Machine, scene: &Scene, term: &Term) -> Result<Val, Stop>
    requires names { machine.old.names ≡ scene.now.names.now }
    requires term { IsNumberedTerm scene.now.names.now (term_of term.now) }
    ensures agrees { Agrees (eval (setting_of scene.now) (term_of term.now)) machine.old machine.new result }
    ensures spent { machine.new.left ≤ machine.old.left }
    ensures names { machine.new.names ≡ machine.old.names }
{
    match term {
        Term::Chain(first, more) => eval_chain(machine, scene, first, more),
        Term::Single(_) => eval_single(machine, scene, term),
        _ => eval_found(machine, scene, term),
    }
}

/// What a term gives, which may well be a number at hand.
#[inline(always)]
fn eval_single(machine: &mut Machine, scene: &Scene, term: &Term) -> Result<Val, Stop>
    requires names { machine.old.names ≡ scene.now.names.now }
    requires term { IsNumberedTerm scene.now.names.now (term_of term.now) }
    ensures agrees { Agrees (eval (setting_of scene.now) (term_of term.now)) machine.old machine.new result }
    ensures spent { machine.new.left ≤ machine.old.left }
    ensures names { machine.new.names ≡ machine.old.names }
{
    if let Some(number) = number_at_hand(machine, term) {
        if machine.try_spend(1) {
            return Ok(Val::Plain(Value::Int(number)));
        }
    }
    eval_found(machine, scene, term)
}

/// Whether a term begins with `++`, so that it gives a text.
#[inline(always)]
pub fn is_joined(term: &Term) -> bool
    ensures { result ≡ is_joined term.now }
{
    match term {
        Term::Chain(first, _) => match first.1 {
            Joint::Join => true,
            _ => false,
        },
        _ => false,
    }
}

/// The text that a term gives which begins with `++`.
#[inline(always)]
pub fn eval_joined(machine: &mut Machine, scene: &Scene, term: &Term) -> Result<Text, Stop>
    requires names { machine.old.names ≡ scene.now.names.now }
    requires term { IsNumberedTerm scene.now.names.now (term_of term.now) }
    requires joined { is_joined term.now ≡ true }
    ensures agrees { AgreesAs (λ t. text t) (eval (setting_of scene.now) (term_of term.now)) machine.old machine.new result }
    ensures spent { machine.new.left ≤ machine.old.left }
    ensures names { machine.new.names ≡ machine.old.names }
{
    match term {
        Term::Chain(first, more) => match first.1 {
            Joint::Join => text_chain(machine, scene, first, more),
            _ => Err(Stop::Unchecked),
        },
        _ => Err(Stop::Unchecked),
    }
}

/// Whether a term begins with an operator between numbers, so that it gives a number.
#[inline(always)]
pub fn is_calculated(term: &Term) -> bool
    ensures { result ≡ is_calculated term.now }
{
    match term {
        Term::Chain(first, _) => is_arithmetic(first.1),
        _ => false,
    }
}

/// The number that a term gives which begins with an operator between numbers.
#[inline(always)]
pub fn eval_calculated(machine: &mut Machine, scene: &Scene, term: &Term) -> Result<i64, Stop>
    requires names { machine.old.names ≡ scene.now.names.now }
    requires term { IsNumberedTerm scene.now.names.now (term_of term.now) }
    requires calculated { is_calculated term.now ≡ true }
    ensures agrees { AgreesAs int (eval (setting_of scene.now) (term_of term.now)) machine.old machine.new result }
    ensures spent { machine.new.left ≤ machine.old.left }
    ensures names { machine.new.names ≡ machine.old.names }
{
    match term {
        Term::Chain(first, more) => number_chain_at_hand(machine, scene, first, more),
        _ => Err(Stop::Unchecked),
    }
}

/// What a term gives, taken from where it stands.
#[inline(never)]
fn eval_found(machine: &mut Machine, scene: &Scene, term: &Term) -> Result<Val, Stop>
    requires names { machine.old.names ≡ scene.now.names.now }
    requires term { IsNumberedTerm scene.now.names.now (term_of term.now) }
    ensures agrees { Agrees (eval (setting_of scene.now) (term_of term.now)) machine.old machine.new result }
    ensures spent { machine.new.left ≤ machine.old.left }
    ensures names { machine.new.names ≡ machine.old.names }
{
    let place = find(machine, scene, term)?;
    Ok(machine.owned(scene.alloc, place)?)
}

/// Where that stands which a term gives. Most are variables, constants and questions.
#[inline(always)]
#[cycle(terms)]
pub(crate) fn find<'a, 's: 'a>(
    machine: &mut Machine,
    scene: &Scene<'s>,
    term: &'a Term,
) -> Result<Place<'a>, Stop>
    requires names { machine.old.names ≡ scene.now.names.now }
    requires term { IsNumberedTerm scene.now.names.now (term_of term.now) }
    ensures agrees { AgreesAs (value_at (standing machine.new)) (eval (setting_of scene.now) (term_of term.now)) machine.old machine.new result }
    ensures spent { machine.new.left ≤ machine.old.left }
    ensures names { machine.new.names ≡ machine.old.names }
    ensures kept { standing machine.new ≡ standing machine.old }
{
    match term {
        Term::Single(Atom::Slot(place)) => {
            machine.tick()?;
            machine.variable_place(*place)
        }
        Term::Single(Atom::Constant(value)) => {
            machine.tick()?;
            Ok(Place::Outside(Lent::Held(value)))
        }
        Term::Single(Atom::Activity) => {
            machine.tick()?;
            let activity = Value::Activity(scene.arguments.activity);
            Ok(Place::Made(Val::Plain(activity)))
        }
        Term::Ask(parts) => find_asked(machine, scene, parts),
        _ => find_any(machine, scene, term),
    }
}

/// Where that stands which a term gives.
#[inline(never)]
#[cycle(terms)]
fn find_any<'a, 's: 'a>(
    machine: &mut Machine,
    scene: &Scene<'s>,
    term: &'a Term,
) -> Result<Place<'a>, Stop>
    requires names { machine.old.names ≡ scene.now.names.now }
    requires term { IsNumberedTerm scene.now.names.now (term_of term.now) }
    ensures agrees { AgreesAs (value_at (standing machine.new)) (eval (setting_of scene.now) (term_of term.now)) machine.old machine.new result }
    ensures spent { machine.new.left ≤ machine.old.left }
    ensures names { machine.new.names ≡ machine.old.names }
    ensures kept { standing machine.new ≡ standing machine.old }
{
    match term {
        Term::Single(atom) => {
            machine.tick()?;
            single(machine, scene, atom)
        }
        Term::Ask(parts) => find_asked(machine, scene, parts),
        Term::Compare(parts) => find_compared(machine, scene, parts),
        Term::Chain(first, more) => find_chain(machine, scene, first, more),
    }
}

/// Where that stands which a question to a term gives.
#[inline(never)]
#[cycle(terms)]
pub(crate) fn find_asked<'a, 's: 'a>(
    machine: &mut Machine,
    scene: &Scene<'s>,
    parts: &'a (Question, Term),
) -> Result<Place<'a>, Stop>
    requires names { machine.old.names ≡ scene.now.names.now }
    requires parts { IsNumberedTerm scene.now.names.now (ask_of parts.now) }
    ensures agrees { AgreesAs (value_at (standing machine.new)) (eval (setting_of scene.now) (ask_of parts.now)) machine.old machine.new result }
    ensures spent { machine.new.left ≤ machine.old.left }
    ensures names { machine.new.names ≡ machine.old.names }
    ensures kept { standing machine.new ≡ standing machine.old }
{
    machine.tick()?;
    match parts {
        (Question::Attribute(key, kind), Term::Single(Atom::Activity)) => {
            machine.tick()?;
            own_attribute(machine, scene, key, *kind)
        }
        (question, term) => find_placed(machine, scene, question, term),
    }
}

/// Where that stands which a question to a term gives, behind its unit.
#[inline(never)]
#[cycle(terms)]
fn find_placed<'a, 's: 'a>(
    machine: &mut Machine,
    scene: &Scene<'s>,
    question: &'a Question,
    term: &'a Term,
) -> Result<Place<'a>, Stop>
    requires names { machine.old.names ≡ scene.now.names.now }
    requires question { IsNumberedQuestion scene.now.names.now question.now }
    requires term { IsNumberedTerm scene.now.names.now (term_of term.now) }
    ensures agrees { AgreesAs (value_at (standing machine.new)) (asked (setting_of scene.now) question.now (term_of term.now)) machine.old machine.new result }
    ensures spent { machine.new.left ≤ machine.old.left }
    ensures names { machine.new.names ≡ machine.old.names }
    ensures kept { standing machine.new ≡ standing machine.old }
{
    let x = find(machine, scene, term)?;
    ask(machine, scene, question, &x)
}

/// The place of what a comparison of two terms gives.
#[inline(never)]
#[cycle(terms)]
fn find_compared<'a>(
    machine: &mut Machine,
    scene: &Scene,
    parts: &(Test, Term, Term),
) -> Result<Place<'a>, Stop>
    requires names { machine.old.names ≡ scene.now.names.now }
    requires parts { IsNumberedTerm scene.now.names.now (compare_of parts.now) }
    ensures agrees { AgreesAs (value_at (standing machine.new)) (eval (setting_of scene.now) (compare_of parts.now)) machine.old machine.new result }
    ensures spent { machine.new.left ≤ machine.old.left }
    ensures names { machine.new.names ≡ machine.old.names }
    ensures kept { standing machine.new ≡ standing machine.old }
{
    let truth = eval_compared(machine, scene, parts)?;
    Ok(made_flag(truth))
}

/// The place of what a chain of operators gives.
#[inline(never)]
#[cycle(terms)]
fn find_chain<'a>(
    machine: &mut Machine,
    scene: &Scene,
    first: &(Term, Joint, Term),
    more: &[(Joint, Term)],
) -> Result<Place<'a>, Stop>
    requires names { machine.old.names ≡ scene.now.names.now }
    requires first { IsNumberedTerm scene.now.names.now (combine_of first.now) }
    requires more { AllByRecursion (λ x. IsNumberedTerm scene.now.names.now (term_of x.1)) more.now }
    ensures agrees { AgreesAs (value_at (standing machine.new)) (chained (setting_of scene.now) (combine_of first.now) more.now) machine.old machine.new result }
    ensures spent { machine.new.left ≤ machine.old.left }
    ensures names { machine.new.names ≡ machine.old.names }
    ensures kept { standing machine.new ≡ standing machine.old }
{
    let value = eval_chain(machine, scene, first, more)?;
    Ok(Place::Made(value))
}

/// What a chain of operators gives.
#[cycle(terms)]
pub(crate) fn eval_chain(
    machine: &mut Machine,
    scene: &Scene,
    first: &(Term, Joint, Term),
    more: &[(Joint, Term)],
) -> Result<Val, Stop>
    requires names { machine.old.names ≡ scene.now.names.now }
    requires first { IsNumberedTerm scene.now.names.now (combine_of first.now) }
    requires more { AllByRecursion (λ x. IsNumberedTerm scene.now.names.now (term_of x.1)) more.now }
    ensures agrees { Agrees (chained (setting_of scene.now) (combine_of first.now) more.now) machine.old machine.new result }
    ensures spent { machine.new.left ≤ machine.old.left }
    ensures names { machine.new.names ≡ machine.old.names }
    ensures kept { standing machine.new ≡ standing machine.old }
{
    match first.1 {
        Joint::Join => {
            let text = text_chain(machine, scene, first, more)?;
            Ok(Val::Plain(Value::Text(text)))
        }
        Joint::Both | Joint::Either => {
            let truth = truth_chain(machine, scene, first, more)?;
            Ok(Val::Plain(Value::Bool(truth)))
        }
        _ => {
            let number = number_chain(machine, scene, first, more)?;
            Ok(Val::Plain(Value::Int(number)))
        }
    }
}
