//! Tokens by their kind and their place in the text.
ghost use Rattle.std.specs.Prelude.{◌≡◌};

/// The kind of a token.
#[derive(Clone, Copy, Debug, PartialEq, Eq)]
pub enum TokenKind {
    /// A name, or a word that the grammar quotes.
    Word,
    Int,
    Text,
    /// Each other quoted token of the grammar.
    Sign,
}

/// A token of a text: its kind, and the bytes from `start` to before `end`.
#[derive(Clone, Copy, Debug, PartialEq, Eq)]
pub struct Token {
    pub kind: TokenKind,
    pub start: usize,
    pub end: usize,
}

/// The tokens of a script's text, in order.
#[derive(Drop)]
pub struct Tokens {
    list: Vec<Token>,
}

impl Tokens {
    pub(crate) fn new(list: Vec<Token>) -> Self
        ensures { result.list.items ≡ list.items }
    {
        Tokens { list }
    }

    /// The tokens, in order.
    pub fn as_slice(&self) -> &[Token]
        ensures { result.now ≡ self.now.list.items }
    {
        &self.list
    }
}
