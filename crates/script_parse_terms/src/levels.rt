//! Expressions by the levels of their operators, from the loosest to single operands.
ghost use Rattle.std.specs.Prelude.{◌≡◌, ◌≤◌, ◌<◌, ◌∷◌, [], MatchResult};
ghost use Rattle.script_tree.specs.declared.symbol.Symbol.TheVariants as s;
ghost use Rattle.script_tree.specs.declared.lexeme.Lexeme.TheVariants as t;
ghost use Rattle.script_tree.specs.Grammar.{Level, ATree, turn_of, Stays};
ghost use Rattle.script_tree.specs.Spelling.{fits};
ghost use Rattle.script_parse_terms.specs.Levels.{TookOperand, TookChain, FailsChain};
ghost use Rattle.script_parse_terms.specs.Reads.{Reads, ReadsBefore, ReadsOperand};
ghost use Rattle.script_parse_terms.specs.Takes.{Begun, Fails, fits_at};
ghost use Rattle.script_parse_terms.specs.Queries.{word_token};
ghost use Rattle.script_tree.specs.Tree.{tree_of, binary_of, joined};

use crate::named::{count, event_field, field, priority, table};
use crate::query::{QueryWord, query_head, query_tail};
use crate::refusal::{ReadError, too_deep, unexpected};
use crate::take::{close, next_level, operator, prefix, want};
use script_tree::{Expr, Fixed, Leaf, Lexeme, Lexemes, Operator, Symbol};
use std::alloc::Global;

/// The level of comparisons, which make no chains.
const COMPARISON: u8 = 5;

/// An expression, and what follows it.
#[cycle(exprs)]
pub fn expression(alloc: Global, ts: Lexemes, depth: u32) -> Result<(Expr, Lexemes), ReadError>
    requires { depth ≤ 64 }
    ensures { Reads (Level 8) (λ e. ATree (tree_of e)) (λ e. fits depth (tree_of e)) depth ts.now result }
{
    let (e, rest) = level(alloc, ts, 8, depth)?;
    Ok((e, rest))
}

/// An expression, the word or sign behind it, which is no bracket, and what follows them.
#[tactic(auto, using(crate::proofs::Machine::made))]
pub fn before(
    alloc: Global,
    ts: Lexemes,
    fixed: Fixed,
    depth: u32,
) -> Result<(Expr, Lexemes), ReadError>
    requires deep { depth ≤ 64 }
    requires no_bracket { turn_of fixed ≡ Stays }
    ensures { ReadsBefore fixed tree_of depth ts.now result }
{
    let (e, rest) = expression(alloc, ts, depth)?;
    let rest = want(rest, fixed, depth)?;
    Ok((e, rest))
}

/// The same in a box, for statements that hold it while they read on.
pub fn boxed_before(
    alloc: Global,
    ts: Lexemes,
    fixed: Fixed,
    depth: u32,
) -> Result<(Box<Expr>, Lexemes), ReadError>
    requires deep { depth ≤ 64 }
    requires no_bracket { turn_of fixed ≡ Stays }
    ensures { ReadsBefore fixed (λ e. tree_of e.value) depth ts.now result }
{
    let (e, rest) = before(alloc, ts, fixed, depth)?;
    Ok((Box::new(alloc, e)?, rest))
}

/// An expression in a box, and what follows it.
pub fn boxed(alloc: Global, ts: Lexemes, depth: u32) -> Result<(Box<Expr>, Lexemes), ReadError>
    requires { depth ≤ 64 }
    ensures { Reads (Level 8) (λ e. ATree (tree_of e.value)) (λ e. fits depth (tree_of e.value)) depth ts.now result }
{
    let (e, rest) = expression(alloc, ts, depth)?;
    Ok((Box::new(alloc, e)?, rest))
}

/// The first operand of an expression, and the level that it has outside of brackets.
#[derive(Drop)]
pub struct Operand {
    pub tree: Expr,
    pub level: u8,
}

/// An expression with operators of this level and below: its first operand, and then level by level what is joined to it.
#[cycle(exprs)]
#[tactic(auto, using(crate::proofs::Climbing::next_begins))]
fn level(alloc: Global, ts: Lexemes, highest: u8, depth: u32) -> Result<(Expr, Lexemes), ReadError>
    requires level { highest ≤ 8 }
    requires deep { depth ≤ 64 }
    ensures { Reads (Level highest) (λ e. ATree (tree_of e)) (λ e. fits_at highest depth (tree_of e)) depth ts.now result }
{
    let (first, mut rest) = first_operand(alloc, ts, highest, depth)?;
    let mut done = first.level;
    let mut tree = first.tree;
    'levels: while let Some(next) = next_level(rest, done, highest) {
        let (longer, behind) = chain(alloc, tree, rest, next, depth)?;
        tree = longer;
        rest = behind;
        done = next;
    }
    Ok((tree, rest))
}

/// What stands before the first operator of a level up to the highest: an expression without operators, or one behind `-` or `not`.
#[cycle(exprs)]
#[tactic(auto, using(crate::proofs::Climbing::operand_begins))]
fn first_operand(
    alloc: Global,
    ts: Lexemes,
    highest: u8,
    depth: u32,
) -> Result<(Operand, Lexemes), ReadError>
    requires level { highest ≤ 8 }
    requires deep { depth ≤ 64 }
    ensures { MatchResult result (λ x. TookOperand highest x.0.level depth ts.now (tree_of x.0.tree) x.1.now) (λ e. Fails (Level highest) depth ts.now e) }
{
    let Some((op, behind)) = prefix(ts, highest) else {
        let (tree, rest) = prim(alloc, ts, depth)?;
        return Ok((Operand { tree, level: 0 }, rest));
    };
    let own = op.level();
    let (inner, rest) = level(alloc, behind, own - 1, depth)?;
    let tree = Expr::Unary(op, Box::new(alloc, inner)?);
    Ok((Operand { tree, level: own }, rest))
}

/// An operand and the operators of a level that follow it, each with its right operand. Of comparisons there is one at most.
#[cycle(exprs)]
#[tactic(auto, using(crate::proofs::Operators::operates))]
fn chain(
    alloc: Global,
    first: Expr,
    ts: Lexemes,
    level_now: u8,
    depth: u32,
) -> Result<(Expr, Lexemes), ReadError>
    requires some { 0 < level_now }
    requires level { level_now ≤ 8 }
    requires deep { depth ≤ 64 }
    ensures { MatchResult result (λ x. TookChain [] level_now level_now depth ts.now (tree_of first) (tree_of x.0) x.1.now) (λ e. FailsChain level_now depth ts.now (tree_of first) e) }
{
    let Some((op, behind)) = operator(ts, level_now) else {
        return Ok((first, ts));
    };
    let (right, mut rest) = level(alloc, behind, level_now - 1, depth)?;
    let binary = Box::new(alloc, (first, op, right))?;
    let mut more = Vec::new(alloc);
    if level_now == COMPARISON {
        return Ok((joined(binary, more), rest));
    }
    'operators: while let Some((op, behind)) = operator(rest, level_now) {
        let (right, after) = level(alloc, behind, level_now - 1, depth)?;
        more.push((op, right))?;
        rest = after;
    }
    Ok((joined(binary, more), rest))
}

/// Operands joined from left to right.
#[tactic(auto, using(script_tree::proofs::Rows::chain_tree))]
fn joined(binary: Box<(Expr, Operator, Expr)>, more: Vec<(Operator, Expr)>) -> Expr
    ensures { tree_of result ≡ joined (binary_of binary.value) more.items }
{
    Expr::Chain(binary, more)
}

/// An expression without operators outside of brackets.
#[cycle(exprs)]
#[tactic(auto, unfolding(script_tree::specs::Grammar::verdict))]
fn prim(alloc: Global, ts: Lexemes, depth: u32) -> Result<(Expr, Lexemes), ReadError>
    requires { depth ≤ 64 }
    ensures { ReadsOperand depth ts.now result }
{
    let [first, rest @ ..] = ts else {
        return Err(unexpected(ts));
    };
    match first {
        Lexeme::Int(number) => Ok((Expr::Leaf(Leaf::Int(number.copy())), rest)),
        Lexeme::Text(text) => Ok((Expr::Leaf(Leaf::Text(text.copy(alloc)?)), rest)),
        Lexeme::Name(name) => Ok((Expr::Leaf(Leaf::Variable(name.copy(alloc)?)), rest)),
        Lexeme::Symbol(Symbol::Constant(constant)) => Ok((
            Expr::Leaf(Leaf::Constant(*constant)),
            rest,
        )),
        Lexeme::Symbol(Symbol::Function(found)) => {
            query(alloc, ts, QueryWord::Plain(*found), rest, depth)
        }
        Lexeme::Symbol(Symbol::Fixed(word)) => worded(alloc, ts, *word, rest, depth),
        Lexeme::Symbol(Symbol::Operator(_) | Symbol::Verb(_)) | Lexeme::Bad => Err(unexpected(ts)),
    }
}

#[cycle(exprs)]
fn worded<'a>(
    alloc: Global,
    ts: Lexemes<'a>,
    word: Fixed,
    behind: Lexemes<'a>,
    depth: u32,
) -> Result<(Expr, Lexemes<'a>), ReadError>
    requires deep { depth ≤ 64 }
    requires begins { ts.now ≡ t.Symbol (s.Fixed word) ∷ behind.now }
    ensures { ReadsOperand depth ts.now result }
{
    match word {
        Fixed::OpenRound => group(alloc, ts, behind, depth),
        Fixed::Own => field(alloc, ts, behind, depth),
        Fixed::Event => event_field(alloc, ts, behind, depth),
        Fixed::Masked => query(alloc, ts, QueryWord::Masked, behind, depth),
        Fixed::Attr => query(alloc, ts, QueryWord::Attribute, behind, depth),
        Fixed::Table => table(alloc, ts, behind, depth),
        Fixed::Profile => query(alloc, ts, QueryWord::Profile, behind, depth),
        Fixed::HasProfile => query(alloc, ts, QueryWord::HasProfile, behind, depth),
        Fixed::Count => count(alloc, ts, behind, depth),
        Fixed::Priority => priority(alloc, ts, behind, depth),
        _ => Err(unexpected(ts)),
    }
}

/// `( e )`
#[cycle(exprs)]
#[tactic(auto, using(crate::proofs::Machine::made, crate::proofs::Operators::group_opens))]
fn group<'a>(
    alloc: Global,
    ts: Lexemes<'a>,
    behind: Lexemes<'a>,
    depth: u32,
) -> Result<(Expr, Lexemes<'a>), ReadError>
    requires deep { depth ≤ 64 }
    requires begins { ts.now ≡ t.Symbol (s.Fixed Fixed.OpenRound) ∷ behind.now }
    ensures { ReadsOperand depth ts.now result }
{
    if depth == 64 {
        return Err(too_deep(ts));
    }
    let (e, rest) = expression(alloc, behind, depth + 1)?;
    let rest = close(rest, Fixed::CloseRound, depth)?;
    Ok((Expr::Group(Box::new(alloc, e)?), rest))
}

/// A function of an expression.
#[cycle(exprs)]
fn query<'a>(
    alloc: Global,
    ts: Lexemes<'a>,
    word: QueryWord,
    behind: Lexemes<'a>,
    depth: u32,
) -> Result<(Expr, Lexemes<'a>), ReadError>
    requires deep { depth ≤ 64 }
    requires begun { Begun (Level 0) (word_token word) depth ts.now behind.now }
    ensures { ReadsOperand depth ts.now result }
{
    let (head, inner) = query_head(alloc, ts, word, behind, depth)?;
    let (e, rest) = expression(alloc, inner, depth + 1)?;
    let (query, rest) = query_tail(alloc, head, rest, depth)?;
    Ok((Expr::Ask(Box::new(alloc, (query, e))?), rest))
}
