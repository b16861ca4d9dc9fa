//! Why no tree is read from tokens: want of memory, or the first token that can't go on.
ghost use Rattle.std.specs.Prelude.{◌≡◌, length};
ghost use Rattle.script_parse_terms.specs.declared.refusal.ReadError.TheVariants.{NoMemory as NoMemoryLeft};
ghost use Rattle.script_parse_terms.specs.Takes.{kind_at};

use script_tree::{Lexeme, Lexemes, Misfit, SyntaxBad};
use slee_value::NoMemory;
use std::alloc::{AllocError, AllocFailed};

/// Why no tree was read.
#[derive(Debug, Drop)]
pub enum ReadError {
    NoMemory,
    Misfit(Misfit),
}

impl From<NoMemory> for ReadError {
    ghost from_gives = { λ _ e. e ≡ NoMemoryLeft };

    fn from(_: NoMemory) -> Self {
        ReadError::NoMemory
    }
}

impl From<AllocError> for ReadError {
    ghost from_gives = { λ _ e. e ≡ NoMemoryLeft };

    fn from(_: AllocError) -> Self {
        ReadError::NoMemory
    }
}

impl<T: Drop> From<AllocFailed<T>> for ReadError {
    ghost from_gives = { λ _ e. e ≡ NoMemoryLeft };

    fn from(_: AllocFailed<T>) -> Self {
        ReadError::NoMemory
    }
}

/// Why the first token can't come.
pub fn unexpected(ts: Lexemes) -> ReadError
    ensures { result ≡ ReadError.Misfit (record { left = length ts.now; kind = kind_at ts.now }) }
{
    let kind = match ts {
        [] => SyntaxBad::End,
        [Lexeme::Bad, ..] => SyntaxBad::Token,
        [_, ..] => SyntaxBad::Expected,
    };
    ReadError::Misfit(Misfit {
        left: ts.len(),
        kind,
    })
}

/// The first token opens level 65.
pub fn too_deep(ts: Lexemes) -> ReadError
    ensures { result ≡ ReadError.Misfit (record { left = length ts.now; kind = SyntaxBad.Deep }) }
{
    ReadError::Misfit(Misfit {
        left: ts.len(),
        kind: SyntaxBad::Deep,
    })
}
