//! Expressions with all that stands in them.
ghost use Rattle.std.specs.Prelude.{◌≡◌, ◌+◌, IfOk};
ghost use Rattle.script_tree.specs.Tree.{Ask, Expression, tree_of, joined, binary_of};
ghost use Rattle.script_types.specs.Elaboration.{expression_of, asked_of, question_before};
ghost use Rattle.script_types.specs.TokenCounts.{tokens_in};
ghost use Rattle.script_types.specs.TypingExpressions.{prefix_kind};
ghost use Rattle.script_check_terms.specs.Answers.{Gives};
ghost use Rattle.script_check_terms.specs.SettingOf.{setting_of};
ghost use Rattle.script_check_terms.specs.Links.{Makes, GivesEnded};
ghost use Rattle.script_check_terms.specs.TypedTerms.{typed_of, asked_term_of};

use crate::joining::{check_joined, side_of};
use crate::kind::{expr_as_kind, expr_serves, is_nothing};
use crate::leaf::{check_leaf, tokens_of_leaf};
use crate::making::ask;
use crate::operator::{left_fits, rule_of};
use crate::query::{
    check_asking, check_query_place, is_query_known, operand_kind, takes, tokens_before,
    tokens_behind,
};
use crate::{Locals, ScriptFault, Setting, behind, check_test};
use script_tree::{Expr, Operator, Prefix, Query};
use script_types::{CheckBad, Question, Term};
use slee_value::Kind;

/// What an expression is made into.
#[derive(Drop)]
pub struct TypedTerm {
    pub kind: Kind,
    pub term: Term,
    /// How many tokens stand before what is behind the expression.
    pub end: usize,
}

/// What an expression is made into where one type is asked for.
#[derive(Drop)]
pub struct AskedTerm {
    pub term: Term,
    /// How many tokens stand before what is behind the expression.
    pub end: usize,
}

/// The type of an operand, and of the result.
fn prefix_kind(op: Prefix) -> Kind
    ensures { result ≡ prefix_kind op }
{
    match op {
        Prefix::Negative => Kind::Int,
        Prefix::Not => Kind::Bool,
    }
}

/// What stands before an operand asks of it.
fn question_before(op: Prefix) -> Question
    ensures { result ≡ question_before op }
{
    match op {
        Prefix::Negative => Question::Negative,
        Prefix::Not => Question::Not,
    }
}

/// The type and the term of an expression; `at` tokens stand before it.
#[cycle(exprs)]
pub fn check_expression(
    setting: &Setting,
    scope: &Locals,
    at: usize,
    x: &Expr,
) -> Result<TypedTerm, ScriptFault>
    ensures made { Gives typed_of result (expression_of (setting_of setting.now) scope.now at (tree_of x.now)) }
    ensures end { IfOk result (λ m. m.end ≡ at + tokens_in (tree_of x.now)) }
{
    match x {
        Expr::Leaf(leaf) => {
            let made = check_leaf(setting, scope, at, leaf)?;
            Ok(TypedTerm {
                kind: made.kind,
                term: Term::Single(made.atom),
                end: behind(at, tokens_of_leaf(leaf))?,
            })
        }
        Expr::Unary(op, operand) => {
            let start = behind(at, 1)?;
            let one = check_expression(setting, scope, start, operand)?;
            let kind = prefix_kind(*op);
            check_test(
                CheckBad::Mismatch,
                start,
                expr_serves(operand, one.kind, kind),
            )?;
            Ok(TypedTerm {
                kind,
                term: ask(setting.alloc, question_before(*op), one.term)?,
                end: one.end,
            })
        }
        Expr::Chain(first, more) => {
            let left = check_pair(setting, scope, at, first)?;
            check_links(setting, scope, at, more, left)
        }
        Expr::Ask(parts) => check_ask(setting, scope, at, parts),
        Expr::Group(inner) => {
            let one = check_expression(setting, scope, behind(at, 1)?, inner)?;
            Ok(TypedTerm {
                kind: one.kind,
                term: one.term,
                end: behind(one.end, 1)?,
            })
        }
    }
}

/// A function of an expression.
#[cycle(exprs)]
fn check_ask(
    setting: &Setting,
    scope: &Locals,
    at: usize,
    parts: &(Query, Expr),
) -> Result<TypedTerm, ScriptFault>
    ensures made { Gives typed_of result (expression_of (setting_of setting.now) scope.now at (Ask parts.now.0 (tree_of parts.now.1))) }
    ensures end { IfOk result (λ m. m.end ≡ at + tokens_in (Ask parts.now.0 (tree_of parts.now.1))) }
{
    let (query, x) = parts;
    check_test(
        CheckBad::Name,
        behind(at, 2)?,
        is_query_known(setting.codes, query),
    )?;
    let start = behind(at, tokens_before(query))?;
    let one = check_expression(setting, scope, start, x)?;
    check_test(CheckBad::Mismatch, start, takes(query, x, one.kind))?;
    let asking = check_asking(setting, behind(one.end, 1)?, one.kind, query)?;
    check_query_place(setting, at, query)?;
    let operand = expr_as_kind(operand_kind(query, one.kind), x, one.term);
    Ok(TypedTerm {
        kind: asking.kind,
        term: ask(setting.alloc, asking.question, operand)?,
        end: behind(one.end, tokens_behind(query))?,
    })
}

/// The first operator of a chain, between its two operands.
#[cycle(exprs)]
fn check_pair(
    setting: &Setting,
    scope: &Locals,
    at: usize,
    first: &(Expr, Operator, Expr),
) -> Result<TypedTerm, ScriptFault>
    ensures made { Gives typed_of result (expression_of (setting_of setting.now) scope.now at (binary_of first.now)) }
    ensures end { IfOk result (λ m. m.end ≡ at + tokens_in (binary_of first.now)) }
{
    let (x, op, y) = first;
    let one = side_of(check_expression(setting, scope, at, x)?, is_nothing(x));
    check_test(
        CheckBad::Mismatch,
        at,
        left_fits(rule_of(*op), one.operand()),
    )?;
    let start = behind(one.made.end, 1)?;
    let other = side_of(check_expression(setting, scope, start, y)?, is_nothing(y));
    check_joined(setting.alloc, *op, start, one, other)
}

/// Operators with their right operands, from left to right; `first` is what stands left of them, made of any expression `x` but
/// `none`.
#[cycle(exprs)]
fn check_links(
    setting: &Setting,
    scope: &Locals,
    at: usize,
    links: &[(Operator, Expr)],
    first: TypedTerm,
) -> Result<TypedTerm, ScriptFault>
    ensures { (x : Expression) → Makes (setting_of setting.now) scope.now at x first → GivesEnded result (setting_of setting.now) scope.now at (joined x links.now) }
{
    let mut left = first;
    'links: for (op, y) in links {
        let one = side_of(left, false);
        check_test(
            CheckBad::Mismatch,
            at,
            left_fits(rule_of(*op), one.operand()),
        )?;
        let start = behind(one.made.end, 1)?;
        let other = side_of(check_expression(setting, scope, start, y)?, is_nothing(y));
        left = check_joined(setting.alloc, *op, start, one, other)?;
    }
    Ok(left)
}

/// The term of an expression where that type is asked for.
pub fn check_asked(
    setting: &Setting,
    scope: &Locals,
    asked: Kind,
    at: usize,
    x: &Expr,
) -> Result<AskedTerm, ScriptFault>
    ensures made { Gives asked_term_of result (asked_of (setting_of setting.now) scope.now asked at (tree_of x.now)) }
    ensures end { IfOk result (λ m. m.end ≡ at + tokens_in (tree_of x.now)) }
{
    let one = check_expression(setting, scope, at, x)?;
    check_test(CheckBad::Mismatch, at, expr_serves(x, one.kind, asked))?;
    Ok(AskedTerm {
        term: expr_as_kind(asked, x, one.term),
        end: one.end,
    })
}
