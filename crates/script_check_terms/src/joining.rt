//! Two operands, joined by an operator.
ghost use Rattle.std.specs.Prelude.{◌≡◌, ◌+◌, ℕ, true, Ok, IfOk};
ghost use Rattle.script_tree.specs.Tree.{Binary, Expression};
ghost use Rattle.script_types.specs.Elaboration.{expression_of};
ghost use Rattle.script_types.specs.Scopes.{Scope};
ghost use Rattle.script_types.specs.TokenCounts.{tokens_in};
ghost use Rattle.script_types.specs.TypingExpressions.{Setting, is_nothing, left_fits, rule_of};
ghost use Rattle.script_check_terms.specs.Answers.{Gives};
ghost use Rattle.script_check_terms.specs.TypedTerms.{typed_of};

use crate::kind::as_kind;
use crate::operator::{Operand, between, kind_between, result_kind, right_fits, rule_of};
use crate::{ScriptFault, TypedTerm, check_test};
use script_tree::Operator;
use script_types::CheckBad;
use std::alloc::Global;

/// What an operand is made into, and whether it is `none`.
#[derive(Drop)]
pub struct Side {
    pub made: TypedTerm,
    pub is_nothing: bool,
}

pub fn side_of(made: TypedTerm, is_nothing: bool) -> Side
    ensures { result ≡ record { made = made; is_nothing = is_nothing } }
{
    Side { made, is_nothing }
}

impl Side {
    /// The operand without its term.
    pub fn operand(&self) -> Operand
        ensures { result ≡ record { kind = self.now.made.kind; is_nothing = self.now.is_nothing } }
    {
        Operand {
            kind: self.made.kind,
            is_nothing: self.is_nothing,
        }
    }
}

/// An operator between two operands, of which the left one may stand there. The right one begins at `start`.
pub fn check_joined(
    alloc: Global,
    op: Operator,
    start: usize,
    one: Side,
    other: Side,
) -> Result<TypedTerm, ScriptFault>
    ensures made { (s : Setting) (scope : Scope) (at : ℕ) (x y : Expression) → is_nothing x ≡ one.is_nothing → is_nothing y ≡ other.is_nothing → expression_of s scope at x ≡ Ok (typed_of one.made) → left_fits (rule_of op) x one.made.kind ≡ true → at + tokens_in x + 1 ≡ start → expression_of s scope start y ≡ Ok (typed_of other.made) → Gives typed_of result (expression_of s scope at (Binary op x y)) }
    ensures end { IfOk result (λ m. m.end ≡ other.made.end) }
{
    let rule = rule_of(op);
    let left = one.operand();
    let right = other.operand();
    check_test(CheckBad::Mismatch, start, right_fits(rule, left, right))?;
    let kind = kind_between(left.kind, right.kind);
    let one = one.made;
    let other = other.made;
    let end = other.end;
    let first = as_kind(kind, left.is_nothing, one.term);
    let second = as_kind(kind, right.is_nothing, other.term);
    Ok(TypedTerm {
        kind: result_kind(rule),
        term: between(alloc, op, kind, first, second)?,
        end,
    })
}
