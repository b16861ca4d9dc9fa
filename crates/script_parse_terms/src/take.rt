//! Single tokens taken from the front: fixed words and signs, names, texts, operators.
ghost use Rattle.std.specs.Prelude.{◌≡◌, ◌≢◌, ◌≤◌, ◌<◌, ◌+◌, ◌∷◌, true, false, Err, MatchOption};
ghost use Rattle.script_tree.specs.declared.symbol.Symbol.TheVariants as s;
ghost use Rattle.script_tree.specs.declared.lexeme.Lexeme.TheVariants as t;
ghost use Rattle.script_tree.specs.Grammar as g;
ghost use Rattle.script_tree.specs.Grammar.{is_fixed, level_of, turn_of};
ghost use Rattle.script_parse_terms.specs.Reads.{Reads, ReadsFirst, Turns};
ghost use Rattle.script_parse_terms.specs.Takes.{operator_in, starts};
ghost use Rattle.script_parse_terms.specs.Levels.{joining, joining_at, next_level, prefix_up_to, prefix_next};
ghost use Rattle.script_tree.specs.Spelling.{over_fits, who_fits};
ghost use Rattle.script_tree.specs.Words.{is_identifier, is_literal};

use crate::refusal::{ReadError, too_deep, unexpected};
use script_tree::{
    Fixed, Identifier, Lexeme, Lexemes, Literal, Operator, Over, Prefix, Symbol, Who,
};
use std::alloc::Global;

/// Whether a token is this word or sign.
#[tactic(auto, using(crate::proofs::Symbols::same))]
fn is_fixed(token: &Lexeme, fixed: Fixed) -> bool
    ensures test { result ≡ is_fixed fixed token.now }
    ensures same { result ≡ true → token.now ≡ t.Symbol (s.Fixed fixed) }
{
    match token {
        Lexeme::Symbol(Symbol::Fixed(found)) => *found == fixed,
        _ => false,
    }
}

/// What follows a word or sign, if the tokens begin with it.
pub fn behind(ts: Lexemes, fixed: Fixed) -> Option<Lexemes>
    ensures { MatchOption result (starts fixed ts.now ≡ false) (λ rest. ts.now ≡ t.Symbol (s.Fixed fixed) ∷ rest.now) }
{
    match ts {
        [first, rest @ ..] if is_fixed(first, fixed) => Some(rest),
        _ => None,
    }
}

/// What follows a word or sign that has to come and is no bracket.
#[tactic(auto, using(crate::proofs::Machine::refuse_fixed), unfolding(script_tree::specs::Grammar::verdict))]
pub fn want(ts: Lexemes, fixed: Fixed, depth: u32) -> Result<Lexemes, ReadError>
    requires deep { depth ≤ 64 }
    requires no_bracket { turn_of fixed ≡ g.Stays }
    ensures read { Turns fixed depth depth ts.now result }
    ensures memory { result ≢ Err ReadError.NoMemory }
{
    match behind(ts, fixed) {
        Some(rest) => Ok(rest),
        None => Err(unexpected(ts)),
    }
}

/// What follows a bracket that has to be opened.
#[tactic(auto, using(crate::proofs::Machine::refuse_fixed), unfolding(script_tree::specs::Grammar::verdict))]
pub fn open(ts: Lexemes, fixed: Fixed, depth: u32) -> Result<Lexemes, ReadError>
    requires deep { depth ≤ 64 }
    requires bracket { turn_of fixed ≡ g.Opens }
    ensures read { Turns fixed depth (depth + 1) ts.now result }
    ensures memory { result ≢ Err ReadError.NoMemory }
{
    match behind(ts, fixed) {
        Some(rest) => {
            if depth == 64 {
                return Err(too_deep(ts));
            }
            Ok(rest)
        }
        None => Err(unexpected(ts)),
    }
}

/// What follows a bracket that has to be closed. `depth` counts the brackets that are open round the pair.
#[tactic(auto, using(crate::proofs::Machine::refuse_fixed), unfolding(script_tree::specs::Grammar::verdict))]
pub fn close(ts: Lexemes, fixed: Fixed, depth: u32) -> Result<Lexemes, ReadError>
    requires deep { depth < 64 }
    requires bracket { turn_of fixed ≡ g.Closes }
    ensures read { Turns fixed (depth + 1) depth ts.now result }
    ensures memory { result ≢ Err ReadError.NoMemory }
{
    match behind(ts, fixed) {
        Some(rest) => Ok(rest),
        None => Err(unexpected(ts)),
    }
}

/// A name that has to come, and what follows it.
#[tactic(auto, using(crate::proofs::Machine::refuse_name), unfolding(script_tree::specs::Grammar::verdict))]
pub fn name(alloc: Global, ts: Lexemes, depth: u32) -> Result<(Identifier, Lexemes), ReadError>
    requires { depth ≤ 64 }
    ensures { Reads g.Name g.AName is_identifier depth ts.now result }
{
    let [first, rest @ ..] = ts else {
        return Err(unexpected(ts));
    };
    match first {
        Lexeme::Name(name) => Ok((name.copy(alloc)?, rest)),
        _ => Err(unexpected(ts)),
    }
}

/// A text that has to come, and what follows it.
#[tactic(auto, using(crate::proofs::Machine::refuse_text), unfolding(script_tree::specs::Grammar::verdict))]
pub fn text(alloc: Global, ts: Lexemes, depth: u32) -> Result<(Literal, Lexemes), ReadError>
    requires { depth ≤ 64 }
    ensures { Reads g.Text g.AText is_literal depth ts.now result }
{
    let [first, rest @ ..] = ts else {
        return Err(unexpected(ts));
    };
    match first {
        Lexeme::Text(text) => Ok((text.copy(alloc)?, rest)),
        _ => Err(unexpected(ts)),
    }
}

/// The operator of a level that comes next, and what follows it.
pub fn operator(ts: Lexemes, level: u8) -> Option<(Operator, Lexemes)>
    ensures { MatchOption result (operator_in level ts.now ≡ None) (λ x. (ts.now ≡ t.Symbol (s.Operator x.0) ∷ x.1.now) × (level_of x.0 ≡ level)) }
{
    let [first, rest @ ..] = ts else {
        return None;
    };
    match first {
        Lexeme::Symbol(Symbol::Operator(found)) => {
            if found.level() == level {
                return Some((*found, rest));
            }
            None
        }
        _ => None,
    }
}

/// The level of the operator that comes next, or 0.
fn joining(ts: Lexemes) -> u8
    ensures { result ≡ joining ts.now }
{
    match ts {
        [] => 0,
        [first, ..] => joining_at(first),
    }
}

fn joining_at(token: &Lexeme) -> u8
    ensures { result ≡ joining_at token.now }
{
    match token {
        Lexeme::Symbol(Symbol::Operator(found)) => found.level(),
        _ => 0,
    }
}

/// The level of the operator that comes next, where it is above one level and not above another.
pub fn next_level(ts: Lexemes, done: u8, highest: u8) -> Option<u8>
    ensures { result ≡ next_level done highest ts.now }
{
    let next = joining(ts);
    if done < next && next <= highest {
        return Some(next);
    }
    None
}

/// What may stand before an operand of a level up to the highest, if it comes next, and what follows it.
pub fn prefix(ts: Lexemes, highest: u8) -> Option<(Prefix, Lexemes)>
    ensures { ReadsFirst (prefix_next highest ts.now) ts.now result }
{
    let [first, rest @ ..] = ts else {
        return None;
    };
    let prefix = prefix_of(first, highest)?;
    Some((prefix, rest))
}

fn prefix_of(token: &Lexeme, highest: u8) -> Option<Prefix>
    ensures { result ≡ prefix_up_to highest token.now }
{
    match token {
        Lexeme::Symbol(Symbol::Operator(Operator::Minus)) if highest >= 1 => Some(Prefix::Negative),
        Lexeme::Symbol(Symbol::Fixed(Fixed::Not)) if highest >= 6 => Some(Prefix::Not),
        _ => None,
    }
}

/// The entity itself or a child, and what follows it.
#[tactic(auto, using(crate::proofs::Choices::refuse_who), unfolding(script_tree::specs::Grammar::verdict))]
pub fn who(alloc: Global, ts: Lexemes, depth: u32) -> Result<(Who, Lexemes), ReadError>
    requires { depth ≤ 64 }
    ensures { Reads g.Who g.AWho who_fits depth ts.now result }
{
    let [first, rest @ ..] = ts else {
        return Err(unexpected(ts));
    };
    if is_fixed(first, Fixed::Own) {
        return Ok((Who::Own, rest));
    }
    match first {
        Lexeme::Name(name) => Ok((Who::Child(name.copy(alloc)?), rest)),
        _ => Err(unexpected(ts)),
    }
}

/// What a `for` goes over, and what follows it.
#[tactic(auto, using(crate::proofs::Choices::refuse_over), unfolding(script_tree::specs::Grammar::verdict))]
pub fn over(alloc: Global, ts: Lexemes, depth: u32) -> Result<(Over, Lexemes), ReadError>
    requires { depth ≤ 64 }
    ensures { Reads g.Over g.AnOver over_fits depth ts.now result }
{
    let [first, rest @ ..] = ts else {
        return Err(unexpected(ts));
    };
    if is_fixed(first, Fixed::Activities) {
        return Ok((Over::Activities, rest));
    }
    match first {
        Lexeme::Name(name) => Ok((Over::Children(name.copy(alloc)?), rest)),
        _ => Err(unexpected(ts)),
    }
}
