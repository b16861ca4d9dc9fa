//! What is told of a text that is no script.
ghost use Rattle.std.specs.Prelude.{◌≡◌, IfOk, slice_get};
ghost use Rattle.script_tree.specs.Grammar.{script_of};
ghost use Rattle.script_tree.specs.Lexer.{lexemes_of};
ghost use Rattle.script_hints.specs.Following.{is_reserved, is_word};
ghost use Rattle.script_hints.specs.Hints.{Hints, Tells, TellsAt, found_in, found_of};

use crate::choice::Choice;
use crate::expected::{Expected, expected_at};
use crate::following::can_follow;
use script_parse::script;
use script_parse_terms::ReadError;
use script_tree::{Lexeme, Misfit, Place, Symbol, SyntaxBad, lexemes, place_of_token};
use slee_value::NoMemory;
use std::alloc::Global;

/// What stands at a place of a text.
#[derive(Clone, Copy)]
pub enum Found {
    Name,
    Number,
    Text,
    Symbol(Symbol),
    /// No token begins there.
    Bad,
    /// The text ends.
    End,
}

/// The first fault of a text that is no script: where it stands, its kind, what stands there, and what may stand there.
#[derive(Drop)]
pub struct SyntaxHint {
    pub place: Place,
    pub kind: SyntaxBad,
    pub found: Found,
    pub expected: Expected,
    /// A word of the language stands where a name may, and so is no name.
    pub is_reserved: bool,
}

fn found_of(token: &Lexeme) -> Found
    ensures { result ≡ found_of token.now }
{
    match token {
        Lexeme::Int(_) => Found::Number,
        Lexeme::Name(_) => Found::Name,
        Lexeme::Text(_) => Found::Text,
        Lexeme::Symbol(symbol) => Found::Symbol(*symbol),
        Lexeme::Bad => Found::Bad,
    }
}

fn found_in(tokens: &[Lexeme], before: usize) -> Found
    ensures { result ≡ found_in (slice_get tokens.now before) }
{
    match tokens.get(before) {
        Some(token) => found_of(token),
        None => Found::End,
    }
}

/// Whether a symbol has the form of a name.
fn is_word(symbol: Symbol) -> bool
    ensures { result ≡ is_word symbol }
{
    match symbol.as_bytes() {
        [first, ..] => first.is_ascii_lowercase(),
        [] => false,
    }
}

/// Whether a word of the language stands where a name may.
fn is_reserved(alloc: Global, text: &str, before: usize, found: Found) -> Result<bool, NoMemory>
    ensures { IfOk result (λ reserved. reserved ≡ is_reserved text.now before found) }
{
    match found {
        Found::Symbol(symbol) if is_word(symbol) => {
            can_follow(alloc, text, before, Choice::Name)
        }
        _ => Ok(false),
    }
}

/// What is told of a text with these tokens, so many of them before the fault.
fn hint_at(
    alloc: Global,
    text: &str,
    tokens: &[Lexeme],
    before: usize,
    kind: SyntaxBad,
) -> Result<SyntaxHint, NoMemory>
    ensures { IfOk result (TellsAt text.now tokens.now before kind) }
{
    let found = found_in(tokens, before);
    Ok(SyntaxHint {
        place: place_of_token(alloc, text, before)?,
        kind,
        found,
        expected: expected_at(alloc, text, before)?,
        is_reserved: is_reserved(alloc, text, before, found)?,
    })
}

/// What is told of a text with so many tokens that don't fit.
#[tactic(auto, using(crate::proofs::Telling::tells))]
fn misfit_hint(
    alloc: Global,
    text: &str,
    tokens: &[Lexeme],
    misfit: Misfit,
) -> Result<SyntaxHint, NoMemory>
    requires { tokens.now ≡ lexemes_of text.now }
    ensures { IfOk result (Tells text.now misfit) }
{
    let before = tokens.len().saturating_sub(misfit.left);
    hint_at(alloc, text, tokens, before, misfit.kind)
}

/// What is told of the first token that can't continue a script, where the text is none.
pub fn syntax_hint(alloc: Global, text: &str) -> Result<Option<SyntaxHint>, NoMemory>
    ensures { IfOk result (λ hint. Hints text.now (script_of (lexemes_of text.now)) hint) }
{
    let tokens = lexemes(alloc, text)?;
    match script(alloc, &tokens) {
        Ok(_) => Ok(None),
        Err(ReadError::NoMemory) => Err(NoMemory),
        Err(ReadError::Misfit(misfit)) => { Ok(Some(misfit_hint(alloc, text, &tokens, misfit)?)) },
    }
}
