//! The fields of an event in byte order. Contracts see the list of names and values.
ghost use Rattle.std.specs.Prelude.{◌≡◌, ◌++◌, ◌∷◌, [], IsTrue, IfOk, OnOk, OnErr, length};
ghost use Rattle.slee_value.specs.Fields.{are_fields};

use crate::{Name, NoMemory, Value};
use std::alloc::Global;
use std::marker::Model;

/// Named values, the names rising in byte order.
#[derive(Debug, Drop)]
pub struct Payload {
    fields: Vec<(Name, Value)>,
}

impl Model for Payload {
    ghost use Rattle.std.specs.Prelude.{List, ℕ, IsTrue};
    ghost use Rattle.slee_value.specs.declared.value.Value.{Value as TypedValue};
    ghost use Rattle.slee_value.specs.Fields.{are_fields};

    ghost Value = { List (List ℕ × TypedValue) };

    ghost view = { λ p. p.fields.items };

    ghost invariant = { λ p. IsTrue (are_fields p.fields.items) };
}

impl Payload {
    /// No fields.
    pub fn new(alloc: Global) -> Self
        ensures { result ≡ [] }
    {
        Payload {
            fields: Vec::new(alloc),
        }
    }

    /// These fields.
    pub fn from_vec(fields: Vec<(Name, Value)>) -> Self
        requires { IsTrue (are_fields fields.items) }
        ensures { result ≡ fields.items }
    {
        Payload { fields }
    }

    /// Adds a field behind all others.
    pub fn push(&mut self, name: Name, value: Value) -> Result<(), NoMemory>
        requires { IsTrue (are_fields (self.old ++ (name, value) ∷ [])) }
        ensures ok { OnOk result (self.new ≡ self.old ++ (name, value) ∷ []) }
        ensures err { OnErr result (self.new ≡ self.old) }
    {
        self.fields.push((name, value))?;
        Ok(())
    }

    /// Its fields.
    pub fn as_slice(&self) -> &[(Name, Value)]
        ensures fields { result.now ≡ self.now }
        ensures rising { IsTrue (are_fields self.now) }
    {
        &self.fields
    }

    /// How many fields it has.
    pub fn len(&self) -> usize
        ensures length { result ≡ length self.now }
        ensures rising { IsTrue (are_fields self.now) }
    {
        self.fields.len()
    }

    /// A copy.
    pub fn copy(&self, alloc: Global) -> Result<Self, NoMemory>
        ensures same { IfOk result (λ p. p ≡ self.now) }
        ensures rising { IsTrue (are_fields self.now) }
    {
        let fields = copied_fields(alloc, self.as_slice())?;
        Ok(Payload { fields })
    }
}

fn copied_fields(alloc: Global, fields: &[(Name, Value)]) -> Result<Vec<(Name, Value)>, NoMemory>
    ensures { IfOk result (λ v. v.items ≡ fields.now) }
{
    let mut copied = Vec::new(alloc);
    for (name, value) in fields {
        copied.push((name.copy(alloc)?, value.copy(alloc)?))?;
    }
    Ok(copied)
}
