//! Texts between quotes. Contracts see the bytes that they stand for.
ghost use Rattle.std.specs.Prelude.{◌≡◌, IsTrue, IfOk};
ghost use Rattle.script_tree.specs.Words.{is_literal};

use slee_value::{NoMemory, Text};
use std::alloc::Global;
use std::marker::Model;

/// The most bytes that stand between a text's quotes.
pub const LITERAL_LIMIT: usize = 4096;

/// A text that a script can write: no byte below 0x20 but LF, and at most 4,096 bytes as written.
#[derive(Debug, Drop)]
pub struct Literal {
    text: Text,
}

impl Model for Literal {
    ghost use Rattle.std.specs.Prelude.{List, ℕ, IsTrue};
    ghost use Rattle.script_tree.specs.Words.{is_literal};

    ghost Value = { List ℕ };

    ghost view = { λ l. l.text };

    ghost invariant = { λ l. IsTrue (is_literal l.text) };
}

impl Literal {
    pub fn new(text: Text) -> Self
        requires { IsTrue (is_literal text) }
        ensures { result ≡ text }
    {
        Literal { text }
    }

    pub fn text(&self) -> &Text
        ensures same { result.now ≡ self.now }
        ensures literal { IsTrue (is_literal self.now) }
    {
        &self.text
    }

    pub fn copy(&self, alloc: Global) -> Result<Self, NoMemory>
        ensures same { IfOk result (λ l. l ≡ self.now) }
        ensures literal { IsTrue (is_literal self.now) }
    {
        Ok(Literal {
            text: self.text.copy(alloc)?,
        })
    }
}
