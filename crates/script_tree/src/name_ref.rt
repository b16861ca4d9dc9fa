//! Names lent from a script's text. Contracts see the name's bytes.
ghost use Rattle.std.specs.Prelude.{◌≡◌, IsTrue, IfOk};
ghost use Rattle.script_tree.specs.Words.{is_identifier};

use crate::Identifier;
use slee_value::NoMemory;
use std::alloc::Global;
use std::marker::Model;

/// A name where it stands in a text: the bytes of an identifier.
#[derive(Drop)]
pub struct NameRef<'a> {
    bytes: &'a [u8],
}

impl<'a> Model for NameRef<'a> {
    ghost use Rattle.std.specs.Prelude.{List, ℕ, IsTrue};
    ghost use Rattle.script_tree.specs.Words.{is_identifier};

    ghost Value = { List ℕ };

    ghost view = { λ n. n.bytes.now };

    ghost invariant = { λ n. IsTrue (is_identifier n.bytes.now) };
}

impl<'a> NameRef<'a> {
    pub fn new(bytes: &'a [u8]) -> Self
        requires { IsTrue (is_identifier bytes.now) }
        ensures { result ≡ bytes.now }
    {
        NameRef { bytes }
    }

    pub fn as_bytes(&self) -> &[u8]
        ensures same { result.now ≡ self.now }
        ensures identifier { IsTrue (is_identifier self.now) }
    {
        self.bytes
    }

    /// The name, copied out of its text.
    pub fn copy(&self, alloc: Global) -> Result<Identifier, NoMemory>
        ensures same { IfOk result (λ i. i ≡ self.now) }
        ensures identifier { IsTrue (is_identifier self.now) }
    {
        Identifier::from_slice(alloc, self.bytes)
    }
}
