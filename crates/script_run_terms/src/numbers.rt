//! The numbers and the truth values that terms give. They go ways of their own, without a place for a value.
ghost use Rattle.std.specs.Prelude.{◌≡◌, ◌≤◌, ◌<◌, OnOk, true};
ghost use Rattle.std.specs.List.{AllByRecursion};
ghost use Rattle.script_meaning.specs.Running.{ticked};
ghost use Rattle.script_meaning.specs.Terms.{eval, single};
ghost use Rattle.script_meaning.specs.Values.{int, flag};
ghost use Rattle.script_types.specs.ProgramOf.{term_of, ask_of, compare_of, combine_of};
ghost use Rattle.script_types.specs.Numbers.{IsNumberedAtom, IsNumberedQuestion, IsNumberedTerm};
ghost use Rattle.script_run_machine.specs.Agreeing.{AgreesAs, EndsFinding};
ghost use Rattle.script_run_machine.specs.Kinds.{NoInt, NoFlag, is_arithmetic, is_choice, is_of_numbers};
ghost use Rattle.script_run_machine.specs.Lending.{standing};
ghost use Rattle.script_run_machine.specs.Machines.{state_of};
ghost use Rattle.script_run_machine.specs.Settings.{setting_of};
ghost use Rattle.script_run_terms.specs.Links.{linked, chained, compared, applied, asked};

use crate::at_hand::{calculated_at_hand, compared_at_hand};
use crate::atoms::{constant_scalar, single_scalar, slot_scalar};
use crate::chains::spend;
use crate::questions::{ask_scalar, slot_length};
use crate::terms::{eval_chain, find};
use script_run_machine::{
    Machine, Scene, Stop, flag_within, int_within, is_arithmetic, is_choice, is_decided_flag,
    is_of_numbers,
};
use script_run_reads::field_scalar;
use script_types::{Atom, Joint, Question, Term, Test};

/// The number that a term gives, if it gives one. Most are variables, constants and fields.
#[inline(always)]
#[cycle(terms)]
pub(crate) fn eval_number(
    machine: &mut Machine,
    scene: &Scene,
    term: &Term,
) -> Result<Option<i64>, Stop>
    requires names { machine.old.names ≡ scene.now.names.now }
    requires term { IsNumberedTerm scene.now.names.now (term_of term.now) }
    ensures finds { EndsFinding int NoInt (eval (setting_of scene.now) (term_of term.now) (state_of machine.old)) machine.new result }
    ensures spent { machine.new.left ≤ machine.old.left }
    ensures names { machine.new.names ≡ machine.old.names }
    ensures kept { standing machine.new ≡ standing machine.old }
{
    match term {
        Term::Single(Atom::Slot(place)) => {
            machine.tick()?;
            slot_scalar(machine, scene, *place)
        }
        Term::Single(Atom::Constant(value)) => {
            machine.tick()?;
            constant_scalar(machine, scene, value)
        }
        Term::Single(Atom::Field(name, kind)) => {
            machine.tick()?;
            field_scalar(machine, scene, name, *kind)
        }
        _ => eval_any_number(machine, scene, term),
    }
}

/// The number that a term gives, if it gives one.
#[inline(never)]
#[cycle(terms)]
fn eval_any_number(machine: &mut Machine, scene: &Scene, term: &Term) -> Result<Option<i64>, Stop>
    requires names { machine.old.names ≡ scene.now.names.now }
    requires term { IsNumberedTerm scene.now.names.now (term_of term.now) }
    ensures finds { EndsFinding int NoInt (eval (setting_of scene.now) (term_of term.now) (state_of machine.old)) machine.new result }
    ensures spent { machine.new.left ≤ machine.old.left }
    ensures names { machine.new.names ≡ machine.old.names }
    ensures kept { standing machine.new ≡ standing machine.old }
{
    match term {
        Term::Single(atom) => ticked_number(machine, scene, atom),
        Term::Ask(parts) => asked_number(machine, scene, parts),
        Term::Compare(parts) => compared_number(machine, scene, parts),
        Term::Chain(first, more) => number_in_chain(machine, scene, first, more),
    }
}

/// The number that a term without parts gives, if it gives one.
#[inline(never)]
fn ticked_number(machine: &mut Machine, scene: &Scene, atom: &Atom) -> Result<Option<i64>, Stop>
    requires names { machine.old.names ≡ scene.now.names.now }
    requires atom { IsNumberedAtom scene.now.names.now atom.now }
    ensures finds { EndsFinding int NoInt (ticked (single (setting_of scene.now) atom.now) (state_of machine.old)) machine.new result }
    ensures spent { machine.new.left ≤ machine.old.left }
    ensures names { machine.new.names ≡ machine.old.names }
    ensures kept { standing machine.new ≡ standing machine.old }
{
    machine.tick()?;
    single_scalar(machine, scene, atom)
}

/// A comparison gives no number.
#[inline(never)]
#[cycle(terms)]
fn compared_number(
    machine: &mut Machine,
    scene: &Scene,
    parts: &(Test, Term, Term),
) -> Result<Option<i64>, Stop>
    requires names { machine.old.names ≡ scene.now.names.now }
    requires parts { IsNumberedTerm scene.now.names.now (compare_of parts.now) }
    ensures finds { EndsFinding int NoInt (eval (setting_of scene.now) (compare_of parts.now) (state_of machine.old)) machine.new result }
    ensures spent { machine.new.left ≤ machine.old.left }
    ensures names { machine.new.names ≡ machine.old.names }
    ensures kept { standing machine.new ≡ standing machine.old }
{
    let _ = eval_compared(machine, scene, parts)?;
    Ok(None)
}

/// The truth value that a term gives, if it gives one. Most are comparisons and fields.
#[inline(always)]
#[cycle(terms)]
pub fn eval_truth(machine: &mut Machine, scene: &Scene, term: &Term) -> Result<Option<bool>, Stop>
    requires names { machine.old.names ≡ scene.now.names.now }
    requires term { IsNumberedTerm scene.now.names.now (term_of term.now) }
    ensures finds { EndsFinding flag NoFlag (eval (setting_of scene.now) (term_of term.now) (state_of machine.old)) machine.new result }
    ensures spent { machine.new.left ≤ machine.old.left }
    ensures names { machine.new.names ≡ machine.old.names }
    ensures kept { standing machine.new ≡ standing machine.old }
{
    match term {
        Term::Compare(parts) => Ok(Some(eval_test(machine, scene, parts)?)),
        Term::Single(Atom::Field(name, kind)) => {
            machine.tick()?;
            field_scalar(machine, scene, name, *kind)
        }
        _ => eval_any_truth(machine, scene, term),
    }
}

/// The truth value that a term gives, if it gives one.
#[inline(never)]
#[cycle(terms)]
fn eval_any_truth(machine: &mut Machine, scene: &Scene, term: &Term) -> Result<Option<bool>, Stop>
    requires names { machine.old.names ≡ scene.now.names.now }
    requires term { IsNumberedTerm scene.now.names.now (term_of term.now) }
    ensures finds { EndsFinding flag NoFlag (eval (setting_of scene.now) (term_of term.now) (state_of machine.old)) machine.new result }
    ensures spent { machine.new.left ≤ machine.old.left }
    ensures names { machine.new.names ≡ machine.old.names }
    ensures kept { standing machine.new ≡ standing machine.old }
{
    match term {
        Term::Single(atom) => {
            machine.tick()?;
            single_scalar(machine, scene, atom)
        }
        Term::Ask(parts) => asked_truth(machine, scene, parts),
        Term::Compare(parts) => Ok(Some(eval_compared(machine, scene, parts)?)),
        Term::Chain(first, more) => truth_in_chain(machine, scene, first, more),
    }
}

/// The number that a question to a term gives, if it gives one.
#[inline(never)]
#[cycle(terms)]
fn asked_number(
    machine: &mut Machine,
    scene: &Scene,
    parts: &(Question, Term),
) -> Result<Option<i64>, Stop>
    requires names { machine.old.names ≡ scene.now.names.now }
    requires parts { IsNumberedTerm scene.now.names.now (ask_of parts.now) }
    ensures finds { EndsFinding int NoInt (eval (setting_of scene.now) (ask_of parts.now) (state_of machine.old)) machine.new result }
    ensures spent { machine.new.left ≤ machine.old.left }
    ensures names { machine.new.names ≡ machine.old.names }
    ensures kept { standing machine.new ≡ standing machine.old }
{
    machine.tick()?;
    let (question, term) = parts;
    match (question, term) {
        (Question::Len, Term::Single(Atom::Slot(place))) => {
            machine.tick()?;
            let length = slot_length(machine, scene, *place)?;
            Ok(Some(length))
        }
        _ => placed_number(machine, scene, question, term),
    }
}

/// The number that a question to a term gives, if it gives one, behind its unit.
#[inline(never)]
#[cycle(terms)]
fn placed_number(
    machine: &mut Machine,
    scene: &Scene,
    question: &Question,
    term: &Term,
) -> Result<Option<i64>, Stop>
    requires names { machine.old.names ≡ scene.now.names.now }
    requires question { IsNumberedQuestion scene.now.names.now question.now }
    requires term { IsNumberedTerm scene.now.names.now (term_of term.now) }
    ensures finds { EndsFinding int NoInt (asked (setting_of scene.now) question.now (term_of term.now) (state_of machine.old)) machine.new result }
    ensures spent { machine.new.left ≤ machine.old.left }
    ensures names { machine.new.names ≡ machine.old.names }
    ensures kept { standing machine.new ≡ standing machine.old }
{
    let x = find(machine, scene, term)?;
    ask_scalar(machine, scene, question, &x)
}

/// The truth value that a question to a term gives, if it gives one.
#[inline(never)]
#[cycle(terms)]
#[tactic(auto, using(script_run_machine::proofs::KindLemmas::no_flag_stays))]
fn asked_truth(
    machine: &mut Machine,
    scene: &Scene,
    parts: &(Question, Term),
) -> Result<Option<bool>, Stop>
    requires names { machine.old.names ≡ scene.now.names.now }
    requires parts { IsNumberedTerm scene.now.names.now (ask_of parts.now) }
    ensures finds { EndsFinding flag NoFlag (eval (setting_of scene.now) (ask_of parts.now) (state_of machine.old)) machine.new result }
    ensures spent { machine.new.left ≤ machine.old.left }
    ensures names { machine.new.names ≡ machine.old.names }
    ensures kept { standing machine.new ≡ standing machine.old }
{
    machine.tick()?;
    let (question, term) = parts;
    match question {
        Question::Not => {
            let Some(truth) = eval_truth(machine, scene, term)? else {
                return Err(Stop::Unchecked);
            };
            Ok(Some(!truth))
        }
        _ => {
            let x = find(machine, scene, term)?;
            ask_scalar(machine, scene, question, &x)
        }
    }
}

/// What a comparison of two terms gives, which may well be numbers at hand.
#[inline(always)]
#[cycle(terms)]
fn eval_test(machine: &mut Machine, scene: &Scene, parts: &(Test, Term, Term)) -> Result<bool, Stop>
    requires names { machine.old.names ≡ scene.now.names.now }
    requires parts { IsNumberedTerm scene.now.names.now (compare_of parts.now) }
    ensures agrees { AgreesAs flag (eval (setting_of scene.now) (compare_of parts.now)) machine.old machine.new result }
    ensures spent { machine.new.left ≤ machine.old.left }
    ensures names { machine.new.names ≡ machine.old.names }
    ensures kept { standing machine.new ≡ standing machine.old }
{
    let (test, one, other) = parts;
    match compared_at_hand(machine, one, other) {
        Some((x, y)) => machine.compare_numbers(*test, x, y),
        None => eval_compared(machine, scene, parts),
    }
}

/// What a comparison of two terms gives.
#[inline(never)]
#[cycle(terms)]
pub(crate) fn eval_compared(
    machine: &mut Machine,
    scene: &Scene,
    parts: &(Test, Term, Term),
) -> Result<bool, Stop>
    requires names { machine.old.names ≡ scene.now.names.now }
    requires parts { IsNumberedTerm scene.now.names.now (compare_of parts.now) }
    ensures agrees { AgreesAs flag (eval (setting_of scene.now) (compare_of parts.now)) machine.old machine.new result }
    ensures spent { machine.new.left ≤ machine.old.left }
    ensures names { machine.new.names ≡ machine.old.names }
    ensures kept { standing machine.new ≡ standing machine.old }
{
    machine.tick()?;
    let (test, one, other) = parts;
    if is_of_numbers(*test) {
        return eval_compared_numbers(machine, scene, *test, one, other);
    }
    eval_compared_values(machine, scene, *test, one, other)
}

/// What a comparison of two values gives.
#[inline(never)]
#[cycle(terms)]
fn eval_compared_values(
    machine: &mut Machine,
    scene: &Scene,
    test: Test,
    one: &Term,
    other: &Term,
) -> Result<bool, Stop>
    requires names { machine.old.names ≡ scene.now.names.now }
    requires one { IsNumberedTerm scene.now.names.now (term_of one.now) }
    requires other { IsNumberedTerm scene.now.names.now (term_of other.now) }
    ensures agrees { AgreesAs flag (compared (setting_of scene.now) test (term_of one.now) (term_of other.now)) machine.old machine.new result }
    ensures spent { machine.new.left ≤ machine.old.left }
    ensures names { machine.new.names ≡ machine.old.names }
    ensures kept { standing machine.new ≡ standing machine.old }
{
    let x = find(machine, scene, one)?;
    let y = find(machine, scene, other)?;
    machine.compare(test, machine.lend(&x), machine.lend(&y))
}

/// What a comparison of two numbers gives.
#[cycle(terms)]
#[tactic(auto, using(script_run_machine::proofs::NumberLemmas::left_compared, script_run_machine::proofs::NumberLemmas::right_compared))]
fn eval_compared_numbers(
    machine: &mut Machine,
    scene: &Scene,
    test: Test,
    one: &Term,
    other: &Term,
) -> Result<bool, Stop>
    requires names { machine.old.names ≡ scene.now.names.now }
    requires one { IsNumberedTerm scene.now.names.now (term_of one.now) }
    requires other { IsNumberedTerm scene.now.names.now (term_of other.now) }
    requires numbers { is_of_numbers test ≡ true }
    ensures agrees { AgreesAs flag (compared (setting_of scene.now) test (term_of one.now) (term_of other.now)) machine.old machine.new result }
    ensures spent { machine.new.left ≤ machine.old.left }
    ensures names { machine.new.names ≡ machine.old.names }
    ensures kept { standing machine.new ≡ standing machine.old }
{
    let x = eval_number(machine, scene, one)?;
    let y = eval_number(machine, scene, other)?;
    let Some(x) = x else {
        return Err(Stop::Unchecked);
    };
    let Some(y) = y else {
        return Err(Stop::Unchecked);
    };
    machine.compare_numbers(test, x, y)
}

/// The number that a chain of operators gives, if it gives one.
#[cycle(terms)]
fn number_in_chain(
    machine: &mut Machine,
    scene: &Scene,
    first: &(Term, Joint, Term),
    more: &[(Joint, Term)],
) -> Result<Option<i64>, Stop>
    requires names { machine.old.names ≡ scene.now.names.now }
    requires first { IsNumberedTerm scene.now.names.now (combine_of first.now) }
    requires more { AllByRecursion (λ x. IsNumberedTerm scene.now.names.now (term_of x.1)) more.now }
    ensures finds { EndsFinding int NoInt (chained (setting_of scene.now) (combine_of first.now) more.now (state_of machine.old)) machine.new result }
    ensures spent { machine.new.left ≤ machine.old.left }
    ensures names { machine.new.names ≡ machine.old.names }
    ensures kept { standing machine.new ≡ standing machine.old }
{
    if is_arithmetic(first.1) {
        let n = number_chain(machine, scene, first, more)?;
        return Ok(Some(n));
    }
    let x = eval_chain(machine, scene, first, more)?;
    Ok(int_within(&x))
}

/// The truth value that a chain of operators gives, if it gives one.
#[cycle(terms)]
fn truth_in_chain(
    machine: &mut Machine,
    scene: &Scene,
    first: &(Term, Joint, Term),
    more: &[(Joint, Term)],
) -> Result<Option<bool>, Stop>
    requires names { machine.old.names ≡ scene.now.names.now }
    requires first { IsNumberedTerm scene.now.names.now (combine_of first.now) }
    requires more { AllByRecursion (λ x. IsNumberedTerm scene.now.names.now (term_of x.1)) more.now }
    ensures finds { EndsFinding flag NoFlag (chained (setting_of scene.now) (combine_of first.now) more.now (state_of machine.old)) machine.new result }
    ensures spent { machine.new.left ≤ machine.old.left }
    ensures names { machine.new.names ≡ machine.old.names }
    ensures kept { standing machine.new ≡ standing machine.old }
{
    if is_choice(first.1) {
        let truth = truth_chain(machine, scene, first, more)?;
        return Ok(Some(truth));
    }
    let x = eval_chain(machine, scene, first, more)?;
    Ok(flag_within(&x))
}

/// What a chain gives that begins with an operator between numbers.
#[cycle(terms)]
pub(crate) fn number_chain(
    machine: &mut Machine,
    scene: &Scene,
    first: &(Term, Joint, Term),
    more: &[(Joint, Term)],
) -> Result<i64, Stop>
    requires names { machine.old.names ≡ scene.now.names.now }
    requires first { IsNumberedTerm scene.now.names.now (combine_of first.now) }
    requires more { AllByRecursion (λ x. IsNumberedTerm scene.now.names.now (term_of x.1)) more.now }
    requires joint { is_arithmetic first.now.1 ≡ true }
    ensures agrees { AgreesAs int (chained (setting_of scene.now) (combine_of first.now) more.now) machine.old machine.new result }
    ensures spent { machine.new.left ≤ machine.old.left }
    ensures names { machine.new.names ≡ machine.old.names }
    ensures kept { standing machine.new ≡ standing machine.old }
{
    spend(machine, more.len())?;
    let x = number_pair(machine, scene, first)?;
    number_links(machine, scene, more, x)
}

/// The same, where most chains are one operator between operands at hand.
#[inline(always)]
pub(crate) fn number_chain_at_hand(
    machine: &mut Machine,
    scene: &Scene,
    first: &(Term, Joint, Term),
    more: &[(Joint, Term)],
) -> Result<i64, Stop>
    requires names { machine.old.names ≡ scene.now.names.now }
    requires first { IsNumberedTerm scene.now.names.now (combine_of first.now) }
    requires more { AllByRecursion (λ x. IsNumberedTerm scene.now.names.now (term_of x.1)) more.now }
    requires joint { is_arithmetic first.now.1 ≡ true }
    ensures agrees { AgreesAs int (chained (setting_of scene.now) (combine_of first.now) more.now) machine.old machine.new result }
    ensures spent { machine.new.left ≤ machine.old.left }
    ensures names { machine.new.names ≡ machine.old.names }
    ensures kept { standing machine.new ≡ standing machine.old }
{
    if more.is_empty() {
        if let Some(number) = calculated_at_hand(machine, first) {
            // A unit each for the operator and its two operands.
            if machine.try_spend(3) {
                return Ok(number);
            }
        }
    }
    number_chain(machine, scene, first, more)
}

/// What a chain gives that begins with `and` or `or`.
#[inline(never)]
#[cycle(terms)]
pub(crate) fn truth_chain(
    machine: &mut Machine,
    scene: &Scene,
    first: &(Term, Joint, Term),
    more: &[(Joint, Term)],
) -> Result<bool, Stop>
    requires names { machine.old.names ≡ scene.now.names.now }
    requires first { IsNumberedTerm scene.now.names.now (combine_of first.now) }
    requires more { AllByRecursion (λ x. IsNumberedTerm scene.now.names.now (term_of x.1)) more.now }
    requires joint { is_choice first.now.1 ≡ true }
    ensures agrees { AgreesAs flag (chained (setting_of scene.now) (combine_of first.now) more.now) machine.old machine.new result }
    ensures spent { machine.new.left ≤ machine.old.left }
    ensures names { machine.new.names ≡ machine.old.names }
    ensures kept { standing machine.new ≡ standing machine.old }
{
    spend(machine, more.len())?;
    let x = truth_pair(machine, scene, first)?;
    truth_links(machine, scene, more, x)
}

/// What the first operator of a chain gives, which is one between numbers.
#[cycle(terms)]
fn number_pair(
    machine: &mut Machine,
    scene: &Scene,
    parts: &(Term, Joint, Term),
) -> Result<i64, Stop>
    requires names { machine.old.names ≡ scene.now.names.now }
    requires parts { IsNumberedTerm scene.now.names.now (combine_of parts.now) }
    requires joint { is_arithmetic parts.now.1 ≡ true }
    ensures agrees { AgreesAs int (eval (setting_of scene.now) (combine_of parts.now)) machine.old machine.new result }
    ensures spent { machine.new.left ≤ machine.old.left }
    ensures names { machine.new.names ≡ machine.old.names }
    ensures kept { standing machine.new ≡ standing machine.old }
    ensures less { OnOk result (machine.new.left < machine.old.left) }
{
    machine.tick()?;
    let (one, joint, other) = parts;
    let x = eval_number(machine, scene, one)?;
    let y = eval_number(machine, scene, other)?;
    let Some(x) = x else {
        return Err(Stop::Unchecked);
    };
    let Some(y) = y else {
        return Err(Stop::Unchecked);
    };
    machine.calculate(*joint, x, y)
}

/// What the first operator of a chain gives, which is `and` or `or`.
#[cycle(terms)]
#[tactic(auto, using(script_run_machine::proofs::FlagLemmas::left_unchosen))]
fn truth_pair(
    machine: &mut Machine,
    scene: &Scene,
    parts: &(Term, Joint, Term),
) -> Result<bool, Stop>
    requires names { machine.old.names ≡ scene.now.names.now }
    requires parts { IsNumberedTerm scene.now.names.now (combine_of parts.now) }
    requires joint { is_choice parts.now.1 ≡ true }
    ensures agrees { AgreesAs flag (eval (setting_of scene.now) (combine_of parts.now)) machine.old machine.new result }
    ensures spent { machine.new.left ≤ machine.old.left }
    ensures names { machine.new.names ≡ machine.old.names }
    ensures kept { standing machine.new ≡ standing machine.old }
    ensures less { OnOk result (machine.new.left < machine.old.left) }
{
    machine.tick()?;
    let (one, joint, other) = parts;
    let Some(x) = eval_truth(machine, scene, one)? else {
        let _ = eval_truth(machine, scene, other)?;
        return Err(Stop::Unchecked);
    };
    if is_decided_flag(*joint, x) {
        return Ok(x);
    }
    choose(machine, scene, *joint, x, other)
}

/// An operator between a truth value and what a term gives.
#[cycle(terms)]
#[tactic(auto, using(script_run_machine::proofs::FlagLemmas::right_unchosen))]
fn choose(
    machine: &mut Machine,
    scene: &Scene,
    joint: Joint,
    x: bool,
    term: &Term,
) -> Result<bool, Stop>
    requires names { machine.old.names ≡ scene.now.names.now }
    requires term { IsNumberedTerm scene.now.names.now (term_of term.now) }
    ensures agrees { AgreesAs flag (applied joint (flag x) (eval (setting_of scene.now) (term_of term.now))) machine.old machine.new result }
    ensures spent { machine.new.left ≤ machine.old.left }
    ensures names { machine.new.names ≡ machine.old.names }
    ensures kept { standing machine.new ≡ standing machine.old }
{
    let Some(y) = eval_truth(machine, scene, term)? else {
        return Err(Stop::Unchecked);
    };
    machine.choose(joint, x, y)
}

/// What stands behind a number, joined to it from left to right.
#[cycle(terms)]
fn number_links(
    machine: &mut Machine,
    scene: &Scene,
    links: &[(Joint, Term)],
    first: i64,
) -> Result<i64, Stop>
    requires names { machine.old.names ≡ scene.now.names.now }
    requires links { AllByRecursion (λ x. IsNumberedTerm scene.now.names.now (term_of x.1)) links.now }
    ensures agrees { AgreesAs int (linked (setting_of scene.now) links.now (int first)) machine.old machine.new result }
    ensures spent { machine.new.left ≤ machine.old.left }
    ensures names { machine.new.names ≡ machine.old.names }
    ensures kept { standing machine.new ≡ standing machine.old }
{
    let mut x = first;
    'links: for (joint, term) in links {
        let Some(y) = eval_number(machine, scene, term)? else {
            return Err(Stop::Unchecked);
        };
        x = machine.calculate(*joint, x, y)?;
    }
    Ok(x)
}

/// What stands behind a truth value, joined to it from left to right.
#[cycle(terms)]
fn truth_links(
    machine: &mut Machine,
    scene: &Scene,
    links: &[(Joint, Term)],
    first: bool,
) -> Result<bool, Stop>
    requires names { machine.old.names ≡ scene.now.names.now }
    requires links { AllByRecursion (λ x. IsNumberedTerm scene.now.names.now (term_of x.1)) links.now }
    ensures agrees { AgreesAs flag (linked (setting_of scene.now) links.now (flag first)) machine.old machine.new result }
    ensures spent { machine.new.left ≤ machine.old.left }
    ensures names { machine.new.names ≡ machine.old.names }
    ensures kept { standing machine.new ≡ standing machine.old }
{
    let mut x = first;
    'links: for (joint, term) in links {
        if is_decided_flag(*joint, x) {
            continue;
        }
        x = choose(machine, scene, *joint, x, term)?;
    }
    Ok(x)
}
