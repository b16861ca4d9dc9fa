//! What is at hand: constants, what variables hold, and what one operator gives between such. Nothing has to be asked for it, and nothing fails.
ghost use Rattle.std.specs.Prelude.{◌≡◌, ◌≤◌, IfSome, IfNone};
ghost use Rattle.script_meaning.specs.Running.{Setting};
ghost use Rattle.script_meaning.specs.Terms.{eval};
ghost use Rattle.script_meaning.specs.Values.{compare, int, text};
ghost use Rattle.script_types.specs.declared.term.Test.{Test as TestAsked};
ghost use Rattle.script_types.specs.Program.{Compare};
ghost use Rattle.script_types.specs.ProgramOf.{term_of, ask_of, combine_of};
ghost use Rattle.script_run_machine.specs.Lending.{standing};
ghost use Rattle.script_run_machine.specs.Machines.{state_of};
ghost use Rattle.script_run_machine.specs.Spending.{Costs};

use script_run_machine::{Lent, Machine, reckon};
use script_types::{Atom, Joint, Question, Term};
use slee_value::Value;

/// A number, with the units that it takes.
#[derive(Debug, Clone, Copy)]
struct Counted {
    number: i64,
    units: u32,
}

/// The number that a term gives, where it is at hand.
#[inline(always)]
#[tactic(auto, using(crate::proofs::HandLemmas::slot_costs, crate::proofs::HandLemmas::constant_costs))]
pub(crate) fn number_at_hand(machine: &Machine, term: &Term) -> Option<i64>
    ensures { IfSome result (λ n. (s : Setting) → Costs 1 machine.now.variables (eval s (term_of term.now)) (int n)) }
{
    match term {
        Term::Single(Atom::Slot(place)) => machine.number_in(*place),
        Term::Single(Atom::Constant(Value::Int(number))) => Some(*number),
        _ => None,
    }
}

/// The text that a term gives, where it is at hand.
#[inline(always)]
#[tactic(auto, using(crate::proofs::HandLemmas::text_costs))]
pub(crate) fn text_at_hand<'a>(machine: &'a Machine, term: &'a Term) -> Option<&'a str>
    ensures { IfSome result (λ t. (s : Setting) → Costs 1 machine.now.variables (eval s (term_of term.now)) (text t.now)) }
{
    match term {
        Term::Single(Atom::Slot(place)) => machine.text_in(*place),
        Term::Single(Atom::Constant(value)) => Lent::Held(value).text(),
        _ => None,
    }
}

/// How long the text is that a variable holds, where a question asks for that.
#[inline(always)]
#[tactic(auto, using(crate::proofs::HandLemmas::length_costs))]
fn length_at_hand(machine: &Machine, parts: &(Question, Term)) -> Option<i64>
    ensures { IfSome result (λ n. (s : Setting) → Costs 2 machine.now.variables (eval s (ask_of parts.now)) (int n)) }
{
    match parts {
        (Question::Len, Term::Single(Atom::Slot(place))) => match machine.text_in(*place) {
            Some(text) => Some(text.len() as i64),
            None => None,
        },
        _ => None,
    }
}

/// The number that a term gives, where it or the text whose length it is is at hand.
#[inline(always)]
fn counted_at_hand(machine: &Machine, term: &Term) -> Option<Counted>
    ensures costs { IfSome result (λ x. (s : Setting) → Costs x.units machine.now.variables (eval s (term_of term.now)) (int x.number)) }
    ensures few { IfSome result (λ x. x.units ≤ 2) }
{
    match term {
        Term::Ask(parts) => Some(Counted {
            number: length_at_hand(machine, parts)?,
            units: 2,
        }),
        _ => Some(Counted {
            number: number_at_hand(machine, term)?,
            units: 1,
        }),
    }
}

/// What an operator between numbers gives, where its operands are at hand and it fails in nothing. Quotients are never at hand.
#[inline(always)]
pub fn calculated_at_hand(machine: &Machine, parts: &(Term, Joint, Term)) -> Option<i64>
    ensures { IfSome result (λ n. (s : Setting) → Costs 3 machine.now.variables (eval s (combine_of parts.now)) (int n)) }
{
    let (one, joint, other) = parts;
    let x = number_at_hand(machine, one)?;
    let y = number_at_hand(machine, other)?;
    reckon(*joint, x, y)
}

/// The numbers that are compared, where both are at hand, behind all units of the comparison. Nothing is spent where they aren't.
#[inline(always)]
pub(crate) fn compared_at_hand(
    machine: &mut Machine,
    one: &Term,
    other: &Term,
) -> Option<(i64, i64)>
    ensures given { IfSome result (λ x. (s : Setting) → (test : TestAsked) → eval s (Compare test (term_of one.now) (term_of other.now)) (state_of machine.old) ≡ compare test (int x.0) (int x.1) (state_of machine.new)) }
    ensures none { IfNone result (machine.new ≡ machine.old) }
    ensures spent { machine.new.left ≤ machine.old.left }
    ensures names { machine.new.names ≡ machine.old.names }
    ensures kept { standing machine.new ≡ standing machine.old }
{
    let x = counted_at_hand(machine, one)?;
    let y = number_at_hand(machine, other)?;
    // A unit for the comparison, those of the left side, and one for the right side.
    if !machine.try_spend(2 + x.units) {
        return None;
    }
    Some((x.number, y))
}
