//! The tokens of a text, and the line and column of each.
ghost use Rattle.std.specs.Prelude.{◌≡◌, ◌<◌, length, slice_get, take, IfOk, MatchResult, Ok};
ghost use Rattle.script_tree.specs.Reading.{tokens_of, fault_at, fault_in, place_after, place_of, place_of_token, start_at, IsFault};

use crate::lexer::lex;
use crate::{SyntaxBad, SyntaxFault, Token, Tokens};
use slee_value::NoMemory;
use std::alloc::Global;

/// The tokens of a text, or the first place at which none begins.
pub fn tokens(alloc: Global, text: &str) -> Result<Tokens, SyntaxFault>
    ensures { MatchResult result (λ x. tokens_of text.now ≡ Ok x.list.items) (λ e. IsFault (tokens_of text.now) e) }
{
    let lexed = match lex(alloc, text) {
        Ok(lexed) => lexed,
        Err(NoMemory) => return Err(SyntaxFault::NoMemory),
    };
    match lexed.bad {
        Some(at) => Err(fault_at(text, at, SyntaxBad::Token)),
        None => Ok(Tokens::new(lexed.tokens)),
    }
}

/// A place in a text: lines and columns count from 1, columns in bytes.
#[derive(Clone, Copy, Debug, PartialEq, Eq)]
pub struct Place {
    pub line: u64,
    pub column: u64,
}

/// A fault where a byte of a text stands, or behind its end.
fn fault_at(text: &str, at: usize, kind: SyntaxBad) -> SyntaxFault
    ensures { result ≡ fault_at text.now at kind }
{
    fault_in(place_of(text, at), kind)
}

/// A fault at a place of a text.
pub fn fault_in(place: Place, kind: SyntaxBad) -> SyntaxFault
    ensures { result ≡ fault_in place kind }
{
    SyntaxFault::At {
        line: place.line,
        column: place.column,
        kind,
    }
}

/// The line and column of the token that has so many before it, or of the text's end.
#[tactic(auto, using(crate::proofs::Places::token_starts))]
pub fn place_of_token(alloc: Global, text: &str, tokens_before: usize) -> Result<Place, NoMemory>
    ensures { IfOk result (λ p. p ≡ place_of_token text.now tokens_before) }
{
    let lexed = lex(alloc, text)?;
    let start = start_of(&lexed.tokens, tokens_before, text.len());
    Ok(place_of(text, start))
}

/// Where a token begins, or the text ends.
fn start_of(tokens: &[Token], at: usize, end: usize) -> usize
    ensures { result ≡ start_at (slice_get tokens.now at) end }
{
    match tokens.get(at) {
        Some(token) => token.start,
        None => end,
    }
}

/// The line and column of a byte of a text, or of its end.
fn place_of(text: &str, at: usize) -> Place
    ensures { result ≡ place_of text.now at }
{
    let front = front_of(text.as_bytes(), at);
    let mut place = Place { line: 1, column: 1 };
    for b in front {
        place = place_after(place, *b);
    }
    place
}

fn front_of(bytes: &[u8], at: usize) -> &[u8]
    ensures { result.now ≡ take at bytes.now }
{
    if bytes.len() < at {
        bytes
    } else {
        &bytes[..at]
    }
}

/// The place of the byte behind this one.
fn place_after(place: Place, b: u8) -> Place
    requires line { place.line < 18446744073709551615 }
    requires column { place.column < 18446744073709551615 }
    ensures { result ≡ place_after place b }
{
    if b == b'\n' {
        Place {
            line: place.line + 1,
            column: 1,
        }
    } else {
        Place {
            line: place.line,
            column: place.column + 1,
        }
    }
}
