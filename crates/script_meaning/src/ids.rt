//! Lists of entities or activities. Contracts see the list of their numbers.
ghost use Rattle.std.specs.Prelude.{◌≡◌, ◌++◌, ◌∷◌, [], OnOk, OnErr, length};

use slee_value::NoMemory;
use std::alloc::Global;
use std::marker::Model;

/// Numbers of entities or activities, as a list.
#[derive(Debug, Drop)]
pub struct Ids {
    ids: Vec<u64>,
}

impl Model for Ids {
    ghost use Rattle.std.specs.Prelude.{List, ℕ};

    ghost Value = { List ℕ };

    ghost view = { λ i. i.ids.items };
}

impl Ids {
    /// No numbers.
    pub fn new(alloc: Global) -> Self
        ensures { result ≡ [] }
    {
        Ids {
            ids: Vec::new(alloc),
        }
    }

    /// These numbers.
    pub fn from_vec(ids: Vec<u64>) -> Self
        ensures { result ≡ ids.items }
    {
        Ids { ids }
    }

    /// Adds a number behind all others.
    pub fn push(&mut self, number: u64) -> Result<(), NoMemory>
        ensures ok { OnOk result (self.new ≡ self.old ++ number ∷ []) }
        ensures err { OnErr result (self.new ≡ self.old) }
    {
        self.ids.push(number)?;
        Ok(())
    }

    /// The numbers.
    pub fn as_slice(&self) -> &[u64]
        ensures { result.now ≡ self.now }
    {
        &self.ids
    }

    /// How many numbers there are.
    pub fn len(&self) -> usize
        ensures { result ≡ length self.now }
    {
        self.ids.len()
    }
}
