//! Which tokens may stand behind others, as the grammar itself decides.
ghost use Rattle.std.specs.Prelude.{◌≡◌, IfOk, MatchResult, OnOk, take};
ghost use Rattle.script_hints.specs.Following.{can_follow, follows, is_apart, is_fitting, is_in, token_of};
ghost use Rattle.script_parse.specs.Whole.{IsMisfit};
ghost use Rattle.script_tree.specs.Grammar.{script_of};
ghost use Rattle.script_tree.specs.Lexer.{lexemes_of};

use crate::choice::{Choice, Group};
use script_parse::script;
use script_parse_terms::ReadError;
use script_tree::{Lexeme, Lexemes, Literal, NameRef, Number, Symbol, lexemes};
use slee_value::{NoMemory, Text};
use std::alloc::Global;

/// A token of that kind.
fn token_of(alloc: Global, choice: Choice) -> Result<Lexeme<'static>, NoMemory>
    ensures { IfOk result (λ token. token ≡ token_of choice) }
{
    match choice {
        Choice::Name => Ok(Lexeme::Name(NameRef::new(b"a"))),
        Choice::Number => Ok(Lexeme::Int(Number::new(0))),
        Choice::Text => Ok(Lexeme::Text(Literal::new(Text::from_str(alloc, "")?))),
        Choice::Symbol(symbol) => Ok(Lexeme::Symbol(symbol)),
    }
}

/// Whether each of these tokens may stand where it does.
fn is_fitting(alloc: Global, tokens: Lexemes) -> Result<bool, NoMemory>
    ensures { IfOk result (λ fits. fits ≡ is_fitting (script_of tokens.now)) }
{
    match script(alloc, tokens) {
        Ok(_) => Ok(true),
        Err(ReadError::Misfit(misfit)) => Ok(misfit.left == 0),
        Err(ReadError::NoMemory) => Err(NoMemory),
    }
}

/// The tokens of a text before a place that has so many before it.
pub(crate) fn front_of(alloc: Global, text: &str, before: usize) -> Result<Vec<Lexeme>, NoMemory>
    ensures { IfOk result (λ front. front.items ≡ take before (lexemes_of text.now)) }
{
    let mut tokens = lexemes(alloc, text)?;
    tokens.truncate(before);
    Ok(tokens)
}

/// Whether a token of that kind may stand behind these. They stay as they are.
#[tactic(auto, unfolding(crate::specs::Following::follows))]
pub(crate) fn follows(
    alloc: Global,
    front: &mut Vec<Lexeme>,
    choice: Choice,
) -> Result<bool, NoMemory>
    ensures fits { IfOk result (λ fits. fits ≡ follows front.old.items choice) }
    ensures same { OnOk result (front.new.items ≡ front.old.items) }
{
    front.push(token_of(alloc, choice)?)?;
    let fits = is_fitting(alloc, front.as_slice())?;
    front.pop();
    Ok(fits)
}

/// Whether a token of that kind may stand in a text that has so many tokens before it.
#[tactic(auto, unfolding(crate::specs::Following::can_follow))]
pub fn can_follow(
    alloc: Global,
    text: &str,
    before: usize,
    choice: Choice,
) -> Result<bool, NoMemory>
    ensures { IfOk result (λ fits. fits ≡ can_follow text.now before choice) }
{
    let mut front = front_of(alloc, text, before)?;
    follows(alloc, &mut front, choice)
}

/// Whether the group is one of operators alone, and the token is none.
fn is_apart(group: Group, choice: Choice) -> bool
    ensures { result ≡ is_apart group choice }
{
    match (group, choice) {
        (Group::Operator, Choice::Symbol(Symbol::Operator(_))) => false,
        (Group::Operator, _) => true,
        (Group::Statement | Group::Expression, _) => false,
    }
}

/// Whether a token of that kind belongs to the group.
#[tactic(auto, unfolding(crate::specs::Following::is_in))]
pub(crate) fn is_in(alloc: Global, group: Group, choice: Choice) -> Result<bool, NoMemory>
    ensures { IfOk result (λ found. found ≡ is_in group choice) }
{
    if is_apart(group, choice) {
        return Ok(false);
    }
    let opening = group.opening();
    can_follow(alloc, opening, opening.len(), choice)
}
