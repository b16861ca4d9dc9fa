//! Functions of expressions: the word, what stands before the expression in the brackets, and the rest.
ghost use Rattle.std.specs.Prelude.{◌≡◌, ◌≤◌, ◌<◌, ◌∷◌, ◌++◌, [], IfOk, MatchResult};
ghost use Rattle.script_tree.specs.Grammar as g;
ghost use Rattle.script_tree.specs.Grammar.{Level, One, AName, AText};
ghost use Rattle.script_tree.specs.Words.{is_identifier, is_literal};
ghost use Rattle.script_tree.specs.Spelling.{fixed};
ghost use Rattle.script_tree.specs.declared.lexeme.Lexeme.TheVariants as t;
ghost use Rattle.script_parse_terms.specs.Reads.{ReadsAll};
ghost use Rattle.script_parse_terms.specs.Takes.{Begun, TookAll, Fails, FailsAll};
ghost use Rattle.script_parse_terms.specs.Queries.{tokens_inside, word_of, TookHead, TookTail, FailsTail, ReadsNamed, word_token, word_parts, parts_behind, items_before, head_fits};

use crate::refusal::ReadError;
use crate::take::{close, name, open, text, want};
use script_tree::{Fixed, Function, Identifier, Lexemes, Literal, Query};
use std::alloc::Global;

/// The first word of a function of an expression.
#[derive(Clone, Copy)]
pub enum QueryWord {
    Plain(Function),
    Masked,
    Attribute,
    Profile,
    HasProfile,
}

/// A function of an expression, with what stands before the expression.
#[derive(Drop)]
pub enum QueryHead {
    Plain(Function),
    Masked(Literal),
    Attribute,
    Profile(Identifier),
    HasProfile(Identifier),
}

/// A function up to its expression, and what follows.
#[tactic(auto, using(crate::proofs::Queries::word_opens))]
pub fn query_head<'a>(
    alloc: Global,
    ts: Lexemes<'a>,
    word: QueryWord,
    behind: Lexemes<'a>,
    depth: u32,
) -> Result<(QueryHead, Lexemes<'a>), ReadError>
    requires deep { depth ≤ 64 }
    requires begun { Begun (Level 0) (word_token word) depth ts.now behind.now }
    ensures { MatchResult result (λ x. TookHead depth ts.now x.0 x.1.now) (λ e. Fails (Level 0) depth ts.now e) }
{
    let inner = open(behind, Fixed::OpenRound, depth)?;
    let (head, rest) = inside(alloc, inner, word, depth + 1)?;
    Ok((head, rest))
}

/// What stands in the brackets before the expression, and what follows.
fn inside(
    alloc: Global,
    ts: Lexemes,
    word: QueryWord,
    depth: u32,
) -> Result<(QueryHead, Lexemes), ReadError>
    requires { depth ≤ 64 }
    ensures word { IfOk result (λ x. word_of x.0 ≡ word) }
    ensures inside { MatchResult result (λ x. TookAll (word_parts word) (Level 8 ∷ parts_behind x.0) depth depth ts.now (tokens_inside x.0) (λ is. items_before x.0 ++ is) (head_fits x.0) x.1.now) (λ e. FailsAll (word_parts word) depth ts.now e) }
{
    match word {
        QueryWord::Plain(function) => Ok((QueryHead::Plain(function), ts)),
        QueryWord::Attribute => Ok((QueryHead::Attribute, ts)),
        QueryWord::Masked => {
            let (event, rest) = text_and_comma(alloc, ts, depth)?;
            Ok((QueryHead::Masked(event), rest))
        }
        QueryWord::Profile => {
            let (table, rest) = name_and_comma(alloc, ts, depth)?;
            Ok((QueryHead::Profile(table), rest))
        }
        QueryWord::HasProfile => {
            let (table, rest) = name_and_comma(alloc, ts, depth)?;
            Ok((QueryHead::HasProfile(table), rest))
        }
    }
}

/// `TEXT ,`
fn text_and_comma(alloc: Global, ts: Lexemes, depth: u32) -> Result<(Literal, Lexemes), ReadError>
    requires { depth ≤ 64 }
    ensures { ReadsAll (g.Text ∷ One Fixed.Comma ∷ []) (λ text. t.Text text ∷ fixed Fixed.Comma ∷ []) (λ text is. AText text ∷ is) is_literal depth depth ts.now result }
{
    let (text, rest) = text(alloc, ts, depth)?;
    let rest = want(rest, Fixed::Comma, depth)?;
    Ok((text, rest))
}

/// `NAME ,`
fn name_and_comma(
    alloc: Global,
    ts: Lexemes,
    depth: u32,
) -> Result<(Identifier, Lexemes), ReadError>
    requires { depth ≤ 64 }
    ensures { ReadsAll (g.Name ∷ One Fixed.Comma ∷ []) (λ name. t.Name name ∷ fixed Fixed.Comma ∷ []) (λ name is. AName name ∷ is) is_identifier depth depth ts.now result }
{
    let (name, rest) = name(alloc, ts, depth)?;
    let rest = want(rest, Fixed::Comma, depth)?;
    Ok((name, rest))
}

/// What comes behind a function's expression, and what follows its closing bracket.
#[tactic(auto, using(crate::proofs::Machine::made))]
pub fn query_tail(
    alloc: Global,
    head: QueryHead,
    ts: Lexemes,
    depth: u32,
) -> Result<(Query, Lexemes), ReadError>
    requires { depth < 64 }
    ensures { MatchResult result (λ x. TookTail depth head ts.now x.0 x.1.now) (λ e. FailsTail depth head ts.now e) }
{
    match head {
        QueryHead::Plain(function) => {
            let rest = close(ts, Fixed::CloseRound, depth)?;
            Ok((Query::Plain(function), rest))
        }
        QueryHead::Masked(event) => {
            let rest = close(ts, Fixed::CloseRound, depth)?;
            Ok((Query::Masked(event), rest))
        }
        QueryHead::Attribute => {
            let (attribute, rest) = last_name(alloc, ts, depth)?;
            Ok((Query::Attribute(attribute), rest))
        }
        QueryHead::Profile(table) => {
            let (attribute, rest) = last_name(alloc, ts, depth)?;
            Ok((Query::Profile(table, attribute), rest))
        }
        QueryHead::HasProfile(table) => {
            let rest = close(ts, Fixed::CloseRound, depth)?;
            Ok((Query::HasProfile(table), rest))
        }
    }
}

/// `, NAME )`
fn last_name(alloc: Global, ts: Lexemes, depth: u32) -> Result<(Identifier, Lexemes), ReadError>
    requires { depth < 64 }
    ensures { ReadsNamed (One Fixed.Comma ∷ []) depth ts.now result }
{
    let rest = want(ts, Fixed::Comma, depth + 1)?;
    let (name, rest) = closed_name(alloc, rest, depth)?;
    Ok((name, rest))
}

/// `NAME )`
#[tactic(auto, using(crate::proofs::Machine::made))]
pub fn closed_name(
    alloc: Global,
    ts: Lexemes,
    depth: u32,
) -> Result<(Identifier, Lexemes), ReadError>
    requires { depth < 64 }
    ensures { ReadsNamed [] depth ts.now result }
{
    let (name, rest) = name(alloc, ts, depth + 1)?;
    let rest = close(rest, Fixed::CloseRound, depth)?;
    Ok((name, rest))
}
