//! Tokens with what they say, as the lexer cuts them from a text.

use crate::{Literal, NameRef, Number, Symbol};
use slee_value::Text;

/// What a token says, or that none begins at a place.
#[derive(Drop)]
pub enum Lexeme<'a> {
    Int(Number),
    Name(NameRef<'a>),
    Text(Literal),
    Symbol(Symbol),
    Bad,
}

/// Tokens, one behind another.
pub type Lexemes<'a> = &'a [Lexeme<'a>];

/// A token that was cut off the front of a text: what it says, and how many bytes it has.
#[derive(Drop)]
pub struct Cut<'a> {
    pub lexeme: Lexeme<'a>,
    pub size: usize,
}

/// A token in a text: what it says, where it begins and where it ends.
#[derive(Drop)]
pub struct Spotted<'a> {
    pub lexeme: Lexeme<'a>,
    pub start: usize,
    pub stop: usize,
}

/// A text that stands between quotes, and how many bytes it is written with there.
#[derive(Drop)]
pub struct Quote {
    pub text: Text,
    pub size: usize,
}
