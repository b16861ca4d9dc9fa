//! Lists that grow at their end. Contracts see the list of the items.
ghost use Rattle.std.specs.Prelude.{◌≡◌, ◌++◌, ◌∷◌, [], OnOk, OnErr, length};

use slee_value::NoMemory;
use std::alloc::Global;
use std::marker::Model;

/// A list of what scripts may name.
#[derive(Debug, Drop)]
pub struct CodeList<T> {
    items: Vec<T>,
}

impl<T> Model for CodeList<T> {
    ghost use Rattle.std.specs.Prelude.{List};

    ghost Value = { List T };

    ghost view = { λ l. l.items.items };
}

impl<T> CodeList<T> {
    /// Nothing.
    pub fn new(alloc: Global) -> Self
        ensures { result ≡ [] }
    {
        CodeList {
            items: Vec::new(alloc),
        }
    }

    /// Adds an item behind all others.
    pub fn push(&mut self, item: T) -> Result<(), NoMemory>
    where
        T: Drop,
        ensures ok { OnOk result (self.new ≡ self.old ++ item ∷ []) }
        ensures err { OnErr result (self.new ≡ self.old) }
    {
        self.items.push(item)?;
        Ok(())
    }

    /// The items.
    pub fn as_slice(&self) -> &[T]
        ensures { result.now ≡ self.now }
    {
        &self.items
    }
}

impl<T> From<Vec<T>> for CodeList<T> {
    ghost from_gives = { λ v l. l ≡ v.items };

    fn from(items: Vec<T>) -> Self {
        CodeList { items }
    }
}
