//! The fields of a fired event, their names rising. Contracts see the list of names and values.
ghost use Rattle.std.specs.Prelude.{◌≡◌, ◌++◌, ◌∷◌, [], IsTrue, IfOk, OnOk, OnErr, length, map};
ghost use Rattle.std.specs.List.{AllByRecursion};
ghost use Rattle.slee_effect.specs.Resolving.{resolved_field, CanResolveField};
ghost use Rattle.slee_value.specs.Order.{rises, names_of};

use crate::Val;
use crate::next::Next;
use crate::resolving::resolve_fields;
use slee_value::{NoMemory, Text};
use std::alloc::Global;
use std::marker::Model;

/// The fields of an event that is fired, their names rising in byte order.
#[derive(Debug, Drop)]
pub struct FiredFields {
    fields: Vec<(Text, Val)>,
}

impl Model for FiredFields {
    ghost use Rattle.std.specs.Prelude.{List, ℕ, IsTrue};
    ghost use Rattle.slee_effect.specs.declared.value.Val.{Val};
    ghost use Rattle.slee_value.specs.Order.{rises, names_of};

    ghost Value = { List (List ℕ × Val) };

    ghost view = { λ f. f.fields.items };

    ghost invariant = { λ f. IsTrue (rises (names_of f.fields.items)) };
}

impl FiredFields {
    /// No fields.
    pub fn new(alloc: Global) -> Self
        ensures { result ≡ [] }
    {
        FiredFields {
            fields: Vec::new(alloc),
        }
    }

    /// These fields.
    pub fn from_vec(fields: Vec<(Text, Val)>) -> Self
        requires { IsTrue (rises (names_of fields.items)) }
        ensures { result ≡ fields.items }
    {
        FiredFields { fields }
    }

    /// Adds a field behind all others.
    pub fn push(&mut self, name: Text, value: Val) -> Result<(), NoMemory>
        requires { IsTrue (rises (names_of (self.old ++ (name, value) ∷ []))) }
        ensures ok { OnOk result (self.new ≡ self.old ++ (name, value) ∷ []) }
        ensures err { OnErr result (self.new ≡ self.old) }
    {
        self.fields.push((name, value))?;
        Ok(())
    }

    /// The fields.
    pub fn as_slice(&self) -> &[(Text, Val)]
        ensures fields { result.now ≡ self.now }
        ensures rising { IsTrue (rises (names_of self.now)) }
    {
        &self.fields
    }

    /// How many fields there are.
    pub fn len(&self) -> usize
        ensures length { result ≡ length self.now }
        ensures rising { IsTrue (rises (names_of self.now)) }
    {
        self.fields.len()
    }

    /// Puts numbers in place of activities and timers that are created.
    #[tactic(auto, using(crate::proofs::NamesLemmas::names_stay))]
    pub(crate) fn resolve(&mut self, next: Next)
        requires { AllByRecursion (CanResolveField next) self.old }
        ensures { self.new ≡ map (resolved_field next) self.old }
    {
        resolve_fields(&mut self.fields, next);
    }

    /// A copy.
    pub fn copy(&self, alloc: Global) -> Result<Self, NoMemory>
        ensures same { IfOk result (λ f. f ≡ self.now) }
        ensures rising { IsTrue (rises (names_of self.now)) }
    {
        let fields = copied_fields(alloc, self.as_slice())?;
        Ok(FiredFields { fields })
    }
}

fn copied_fields(alloc: Global, fields: &[(Text, Val)]) -> Result<Vec<(Text, Val)>, NoMemory>
    ensures { IfOk result (λ v. v.items ≡ fields.now) }
{
    let mut copied = Vec::new(alloc);
    for (name, value) in fields {
        copied.push((name.copy(alloc)?, value.copy(alloc)?))?;
    }
    Ok(copied)
}
