//! Operators between two operands. Clauses speak of each pair of expressions `x` and `y` that are `none` exactly if the operands
//! are.
ghost use Rattle.std.specs.Prelude.{◌≡◌, IfOk};
ghost use Rattle.script_tree.specs.Tree.{Expression};
ghost use Rattle.script_types.specs.Elaboration.{between, kind_between, scale_of};
ghost use Rattle.script_types.specs.ProgramOf.{term_of};
ghost use Rattle.script_types.specs.TypingExpressions.{alike, is_nothing, left_fits, result_kind, right_fits, rule_of};
ghost use Rattle.script_check_terms.specs.Rules.{rule_in};

use crate::kind::{same_kind, serves};
use crate::making::{combine, compare};
use script_tree::Operator;
use script_types::{Joint, Scale, Term, Test};
use slee_value::{Kind, NoMemory};
use std::alloc::Global;

/// What an operator asks of its operands.
#[derive(Debug, Clone, Copy, PartialEq, Eq)]
pub enum Rule {
    /// One type, which its result has too.
    Both(Kind),
    /// Two ints or two texts.
    Ordered,
    /// Two values of one type.
    Equated,
}

/// An operand: its type, and whether it is `none`.
#[derive(Debug, Clone, Copy, PartialEq, Eq)]
pub struct Operand {
    pub kind: Kind,
    pub is_nothing: bool,
}

pub fn rule_of(op: Operator) -> Rule
    ensures { rule_in result ≡ rule_of op }
{
    match op {
        Operator::Or | Operator::And => Rule::Both(Kind::Bool),
        Operator::Equal | Operator::NotEqual => Rule::Equated,
        Operator::Less | Operator::LessOrEqual | Operator::Greater | Operator::GreaterOrEqual =>
            Rule::Ordered,
        Operator::Join => Rule::Both(Kind::Text),
        Operator::Plus
        | Operator::Minus
        | Operator::Times
        | Operator::Divide
        | Operator::Remainder => Rule::Both(Kind::Int),
    }
}

/// The type of the whole.
pub fn result_kind(rule: Rule) -> Kind
    ensures { result ≡ result_kind (rule_in rule) }
{
    match rule {
        Rule::Both(kind) => kind,
        Rule::Ordered => Kind::Bool,
        Rule::Equated => Kind::Bool,
    }
}

/// Whether it may be the left operand.
pub fn left_fits(rule: Rule, one: Operand) -> bool
    ensures { (x : Expression) → is_nothing x ≡ one.is_nothing → result ≡ left_fits (rule_in rule) x one.kind }
{
    match rule {
        Rule::Both(kind) => serves(one.is_nothing, one.kind, kind),
        Rule::Ordered => same_kind(one.kind, Kind::Int) || same_kind(one.kind, Kind::Text),
        Rule::Equated => true,
    }
}

/// Whether the two are of one type.
fn are_alike(one: Operand, other: Operand) -> bool
    ensures { (x y : Expression) → is_nothing x ≡ one.is_nothing → is_nothing y ≡ other.is_nothing → result ≡ alike x one.kind y other.kind }
{
    serves(one.is_nothing, one.kind, other.kind) || serves(other.is_nothing, other.kind, one.kind)
}

/// Whether the right operand fits the left one.
pub fn right_fits(rule: Rule, one: Operand, other: Operand) -> bool
    ensures { (x y : Expression) → is_nothing x ≡ one.is_nothing → is_nothing y ≡ other.is_nothing → result ≡ right_fits (rule_in rule) x one.kind y other.kind }
{
    match rule {
        Rule::Both(kind) => serves(other.is_nothing, other.kind, kind),
        Rule::Ordered => are_alike(one, other),
        Rule::Equated => are_alike(one, other),
    }
}

/// The type by which two operands are joined or compared: `none` beside a timer is one.
pub fn kind_between(one: Kind, other: Kind) -> Kind
    ensures { result ≡ kind_between one other }
{
    if same_kind(one, other) {
        one
    } else {
        Kind::Timer
    }
}

/// Ints by their size, texts in byte order.
fn scale_of(kind: Kind) -> Scale
    ensures { result ≡ scale_of kind }
{
    match kind {
        Kind::Text => Scale::Text,
        Kind::Int | Kind::Bool | Kind::Activity | Kind::Timer => Scale::Int,
    }
}

/// An operator between two operands of that type.
pub fn between(
    alloc: Global,
    op: Operator,
    kind: Kind,
    one: Term,
    other: Term,
) -> Result<Term, NoMemory>
    ensures { IfOk result (λ t. term_of t ≡ between op kind (term_of one) (term_of other)) }
{
    match op {
        Operator::Or => combine(alloc, Joint::Either, one, other),
        Operator::And => combine(alloc, Joint::Both, one, other),
        Operator::Equal => compare(alloc, Test::Same(kind), one, other),
        Operator::NotEqual => compare(alloc, Test::Unlike(kind), one, other),
        Operator::Less => compare(alloc, Test::Below(scale_of(kind)), one, other),
        Operator::LessOrEqual => compare(alloc, Test::AtMost(scale_of(kind)), one, other),
        Operator::Greater => compare(alloc, Test::Above(scale_of(kind)), one, other),
        Operator::GreaterOrEqual => compare(alloc, Test::AtLeast(scale_of(kind)), one, other),
        Operator::Join => combine(alloc, Joint::Join, one, other),
        Operator::Plus => combine(alloc, Joint::Add, one, other),
        Operator::Minus => combine(alloc, Joint::Subtract, one, other),
        Operator::Times => combine(alloc, Joint::Multiply, one, other),
        Operator::Divide => combine(alloc, Joint::Divide, one, other),
        Operator::Remainder => combine(alloc, Joint::Remainder, one, other),
    }
}
