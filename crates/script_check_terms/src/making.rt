//! Terms out of their parts.
ghost use Rattle.std.specs.Prelude.{◌≡◌, IfOk};
ghost use Rattle.script_types.specs.Program.{Ask, Combine, Compare};
ghost use Rattle.script_types.specs.ProgramOf.{term_of};

use script_types::{Joint, Question, Term, Test};
use slee_value::NoMemory;
use std::alloc::Global;

/// What is asked of a term.
pub fn ask(alloc: Global, question: Question, operand: Term) -> Result<Term, NoMemory>
    ensures { IfOk result (λ t. term_of t ≡ Ask question (term_of operand)) }
{
    Ok(Term::Ask(Box::new(alloc, (question, operand))?))
}

/// A comparison of two terms.
pub fn compare(alloc: Global, test: Test, one: Term, other: Term) -> Result<Term, NoMemory>
    ensures { IfOk result (λ t. term_of t ≡ Compare test (term_of one) (term_of other)) }
{
    Ok(Term::Compare(Box::new(alloc, (test, one, other))?))
}

/// An operator between two terms, put behind those of the left one where that is a chain already.
pub fn combine(alloc: Global, op: Joint, one: Term, other: Term) -> Result<Term, NoMemory>
    ensures { IfOk result (λ t. term_of t ≡ Combine op (term_of one) (term_of other)) }
{
    match one {
        Term::Chain(first, more) => {
            let mut more = more;
            more.push((op, other))?;
            Ok(Term::Chain(first, more))
        }
        Term::Single(atom) => pair(alloc, op, Term::Single(atom), other),
        Term::Ask(parts) => pair(alloc, op, Term::Ask(parts), other),
        Term::Compare(parts) => pair(alloc, op, Term::Compare(parts), other),
    }
}

/// A new chain.
fn pair(alloc: Global, op: Joint, one: Term, other: Term) -> Result<Term, NoMemory>
    ensures { IfOk result (λ t. term_of t ≡ Combine op (term_of one) (term_of other)) }
{
    let first = Box::new(alloc, (one, op, other))?;
    Ok(Term::Chain(first, Vec::new(alloc)))
}
