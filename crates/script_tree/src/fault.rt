//! Why a text is no script.

/// Why a token can't continue a script.
#[derive(Clone, Copy, Debug, PartialEq, Eq)]
pub enum SyntaxBad {
    /// No token begins there.
    Token,
    /// Another token has to come.
    Expected,
    /// Brackets are nested more than 64 deep.
    Deep,
    /// The text ends too early.
    End,
}

/// The first fault among tokens: how many tokens are left there, and why.
#[derive(Clone, Copy, Debug, PartialEq, Eq)]
pub struct Misfit {
    pub left: usize,
    pub kind: SyntaxBad,
}

/// A fault in a script's text, or no memory to read it.
#[derive(Clone, Copy, Debug, PartialEq, Eq)]
pub enum SyntaxFault {
    /// The first token that can't continue a script. Lines and columns count from 1, columns in bytes.
    At {
        line: u64,
        column: u64,
        kind: SyntaxBad,
    },
    NoMemory,
}
