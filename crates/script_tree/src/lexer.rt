//! A text cut into tokens, blanks and comments left out.
ghost use Rattle.std.specs.Prelude.{◌≡◌, ◌≤◌, ◌∷◌, [], map, drop, length, slice_index, IfOk, IfSome, IsTrue, MatchOption};
ghost use Rattle.std.specs.List.{list_all, prefix_len};
ghost use Rattle.slee_value.specs.Name.{is_letter, is_digit, is_byte_of_name};
ghost use Rattle.script_tree.specs.Lexer.{spots_of, lexemes_of, cut, word_cut, number_cut, decimal_in, is_bad, is_blank, is_in_line, Gap};
ghost use Rattle.script_tree.specs.Reading.{tokens_of, token_of, token_kind, symbol_kind, token_answer};

use crate::lexeme::{Cut, Lexeme, Spotted};
use crate::quote::quoted;
use crate::reserve::reserved;
use crate::sign::sign;
use crate::{NUMBER_LIMIT, NameRef, Number, Symbol, Token, TokenKind};
use slee_value::{NAME_LIMIT, NoMemory};
use std::alloc::Global;
use std::marker::Model;

/// What each token of a text says, up to the first place where none begins; a bad one is the last.
pub fn lexemes(alloc: Global, text: &str) -> Result<Vec<Lexeme>, NoMemory>
    ensures { IfOk result (λ x. x.items ≡ lexemes_of text.now) }
{
    let mut lexemes = Vec::with_capacity(alloc, text.len() / 3)?;
    let mut scan = Scan::new(text);
    'tokens: while let Some(spot) = scan.next(alloc)? {
        lexemes.push(spot.lexeme)?;
    }
    Ok(lexemes)
}

/// The tokens of a text, up to the first place where none begins.
#[derive(Drop)]
pub struct Lexed {
    /// The kind and place of each; a bad one is the last.
    pub tokens: Vec<Token>,
    /// Where a bad token begins.
    pub bad: Option<usize>,
}

/// The kinds and places of a text's tokens.
pub fn lex(alloc: Global, text: &str) -> Result<Lexed, NoMemory>
    ensures tokens { IfOk result (λ x. x.tokens.items ≡ map token_of (spots_of text.now)) }
    ensures answer { IfOk result (λ x. tokens_of text.now ≡ token_answer text.now x.bad x.tokens.items) }
{
    let mut tokens = Vec::with_capacity(alloc, text.len() / 3)?;
    let mut scan = Scan::new(text);
    'tokens: while let Some(spot) = scan.next(alloc)? {
        tokens.push(Token {
            kind: kind_of(&spot.lexeme),
            start: spot.start,
            end: spot.stop,
        })?;
        if is_bad(&spot.lexeme) {
            return Ok(Lexed {
                tokens,
                bad: Some(spot.start),
            });
        }
    }
    Ok(Lexed { tokens, bad: None })
}

/// The tokens of a text that are left to read.
#[derive(Drop)]
struct Scan<'a> {
    text: &'a str,
    at: usize,
}

impl<'a> Model for Scan<'a> {
    ghost use Rattle.std.specs.Prelude.{◌≤◌, List, length};
    ghost use Rattle.script_tree.specs.Lexer.{Spot, spots_behind};

    ghost Value = { List Spot };

    ghost view = { λ s. spots_behind s.text.now s.at };

    ghost invariant = { λ s. s.at ≤ length s.text.now };
}

impl<'a> Scan<'a> {
    fn new(text: &'a str) -> Self
        ensures { result ≡ spots_of text.now }
    {
        Scan { text, at: 0 }
    }

    /// The next token; a bad one is the last.
    fn next(&mut self, alloc: Global) -> Result<Option<Spotted<'a>>, NoMemory>
        ensures next { IfOk result (λ x. MatchOption x (self.old ≡ []) (λ spot. self.old ≡ spot ∷ self.new)) }
        ensures last { IfOk result (λ x. IfSome x (λ spot. IsTrue (is_bad spot.lexeme) → self.new ≡ [])) }
    {
        let bytes = self.text.as_bytes();
        let start = self.at + gap_len(&bytes[self.at..]);
        if start == bytes.len() {
            return Ok(None);
        }
        let Cut { lexeme, size } = token_at(alloc, self.text, start)?;
        let stop = start + size;
        self.at = if is_bad(&lexeme) { bytes.len() } else { stop };
        Ok(Some(Spotted {
            lexeme,
            start,
            stop,
        }))
    }
}

/// How many bytes of blanks and comments come first.
fn gap_len(bytes: &[u8]) -> usize
    ensures { Gap bytes.now result }
{
    let mut n = 0;
    'gap: while n < bytes.len() {
        if is_blank(bytes[n]) {
            n += 1;
        } else if bytes[n] == b'#' {
            n += 1;
            n += line_len(&bytes[n..]);
        } else {
            return n;
        }
    }
    n
}

fn is_blank(b: u8) -> bool
    ensures { result ≡ is_blank b }
{
    b == b' ' || b == b'\t' || b == b'\r' || b == b'\n'
}

/// How many bytes come before the line's end.
fn line_len(bytes: &[u8]) -> usize
    ensures value { result ≡ prefix_len is_in_line bytes.now }
    ensures within { result ≤ length bytes.now }
{
    bytes.iter().take_while(|b| **b != b'\n').count()
}

/// The token that begins at a place.
fn token_at(alloc: Global, text: &str, at: usize) -> Result<Cut, NoMemory>
    requires { at ≤ length text.now }
    ensures cut { IfOk result (λ x. x ≡ cut (drop at text.now)) }
{
    let here = &text.as_bytes()[at..];
    let [first, rest @ ..] = here else {
        return Ok(Cut {
            lexeme: Lexeme::Bad,
            size: 0,
        });
    };
    if first.is_ascii_lowercase() {
        return Ok(word(&here[..name_len(here)]));
    }
    if first.is_ascii_digit() {
        return Ok(number(&here[..digits_len(here)]));
    }
    if *first == b'"' {
        let (_, behind) = text.split_at(at + 1);
        return quoted(alloc, behind);
    }
    Ok(sign(*first, rest))
}

/// How many bytes of a name come first.
fn name_len(bytes: &[u8]) -> usize
    ensures value { result ≡ prefix_len is_byte_of_name bytes.now }
    ensures within { result ≤ length bytes.now }
{
    bytes
        .iter()
        .take_while(|b| b.is_ascii_lowercase() || b.is_ascii_digit() || **b == b'_')
        .count()
}

/// How many digits come first.
fn digits_len(bytes: &[u8]) -> usize
    ensures value { result ≡ prefix_len is_digit bytes.now }
    ensures within { result ≤ length bytes.now }
{
    bytes.iter().take_while(|b| b.is_ascii_digit()).count()
}

/// A word of the language, else a name, if it isn't too long.
fn word(run: &[u8]) -> Cut
    requires first { IsTrue (is_letter (slice_index run.now 0)) }
    requires all { IsTrue (list_all is_byte_of_name run.now) }
    ensures { result ≡ word_cut run.now }
{
    let size = run.len();
    if let Some(symbol) = reserved(run) {
        return Cut {
            lexeme: Lexeme::Symbol(symbol),
            size,
        };
    }
    if size > NAME_LIMIT {
        return Cut {
            lexeme: Lexeme::Bad,
            size,
        };
    }
    Cut {
        lexeme: Lexeme::Name(NameRef::new(run)),
        size,
    }
}

/// The number that digits write, without zeros in front.
fn number(digits: &[u8]) -> Cut
    ensures { result ≡ number_cut digits.now }
{
    let size = digits.len();
    let lexeme = match decimal(digits) {
        Some(value) => Lexeme::Int(Number::new(value)),
        None => Lexeme::Bad,
    };
    Cut { lexeme, size }
}

fn decimal(digits: &[u8]) -> Option<u64>
    ensures value { result ≡ decimal_in digits.now }
{
    if digits.len() > 1 && digits[0] == b'0' {
        return None;
    }
    let mut value: u64 = 0;
    'digits: for b in digits {
        let digit = u64::from(b.saturating_sub(b'0'));
        if value > (NUMBER_LIMIT - digit) / 10 {
            return None;
        }
        value = value * 10 + digit;
    }
    Some(value)
}

fn is_bad(lexeme: &Lexeme) -> bool
    ensures { result ≡ is_bad lexeme.now }
{
    matches!(lexeme, Lexeme::Bad)
}

fn kind_of(lexeme: &Lexeme) -> TokenKind
    ensures { result ≡ token_kind lexeme.now }
{
    match lexeme {
        Lexeme::Int(_) => TokenKind::Int,
        Lexeme::Name(_) => TokenKind::Word,
        Lexeme::Text(_) => TokenKind::Text,
        Lexeme::Symbol(symbol) => symbol_kind(*symbol),
        Lexeme::Bad => TokenKind::Sign,
    }
}

/// A symbol in letters is a word.
fn symbol_kind(symbol: Symbol) -> TokenKind
    ensures { result ≡ symbol_kind symbol }
{
    match symbol.as_bytes() {
        [first, ..] if first.is_ascii_lowercase() => TokenKind::Word,
        _ => TokenKind::Sign,
    }
}
