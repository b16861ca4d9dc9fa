//! Names that a script gives and uses. Contracts see the name's bytes.
ghost use Rattle.std.specs.Prelude.{◌≡◌, IsTrue, IfOk};
ghost use Rattle.script_tree.specs.Words.{is_identifier};

use crate::NameRef;
use slee_value::{Name, NoMemory};
use std::alloc::Global;
use std::marker::Model;

/// A name that a script can write: one that is no word of the language and no function's.
#[derive(Drop)]
pub struct Identifier {
    name: Name,
}

impl Model for Identifier {
    ghost use Rattle.std.specs.Prelude.{List, ℕ, IsTrue};
    ghost use Rattle.script_tree.specs.Words.{is_identifier};

    ghost Value = { List ℕ };

    ghost view = { λ i. i.name };

    ghost invariant = { λ i. IsTrue (is_identifier i.name) };
}

impl Identifier {
    /// The name with these bytes.
    pub fn from_slice(alloc: Global, bytes: &[u8]) -> Result<Self, NoMemory>
        requires { IsTrue (is_identifier bytes.now) }
        ensures { IfOk result (λ i. i ≡ bytes.now) }
    {
        Ok(Identifier {
            name: Name::from_slice(alloc, bytes)?,
        })
    }

    pub fn as_bytes(&self) -> &[u8]
        ensures same { result.now ≡ self.now }
        ensures identifier { IsTrue (is_identifier self.now) }
    {
        self.name.as_bytes()
    }

    /// The name where it stands.
    pub fn as_ref(&self) -> NameRef
        ensures same { result ≡ self.now }
        ensures identifier { IsTrue (is_identifier self.now) }
    {
        NameRef::new(self.as_bytes())
    }
}
