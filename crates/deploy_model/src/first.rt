//! What the first of each name stands for: which item of a list, or which type.
ghost use Rattle.std.specs.Prelude.{◌≡◌, ℕ, List, Option, IfOk, OnOk};
ghost use Rattle.script_tree.specs.Tree.{Bytes};
ghost use Rattle.deploy_model.specs.Firsts.{found_in, answer_of, only_at};
ghost use Rattle.deploy_model.specs.Rules.{or_later};
ghost use Rattle.deploy_model.specs.Tables.{key_number, kind_of};

use indexmap::IndexMap;
use script_types::Named;
use slee_value::{Kind, Name, NoMemory};
use std::alloc::Global;

/// From names to what the first of each stands for.
#[derive(Drop)]
pub struct Firsts<'v, V> {
    found: IndexMap<&'v str, V>,
}

impl<'v, V: Copy> Firsts<'v, V> {
    pub(crate) fn new(alloc: Global) -> Self
        ensures { (q : Bytes) → answer_of result q ≡ Option.None }
    {
        Firsts {
            found: IndexMap::new(alloc),
        }
    }

    /// The name stands for the value, if it stood for nothing before.
    pub(crate) fn note(&mut self, name: &'v str, value: V) -> Result<(), NoMemory>
        ensures { OnOk result ((q : Bytes) → answer_of self.new q ≡ or_later (answer_of self.old q) (only_at name.now value q)) }
    {
        if self.found.get(&name).is_some() {
            return Ok(());
        }
        self.found.insert(name, value)?;
        Ok(())
    }

    /// What the name stands for.
    pub fn get(&self, name: &str) -> Option<V>
        ensures { result ≡ answer_of self.now name.now }
    {
        self.found.get(&name).copied()
    }
}

/// Which item of a list has each name.
pub type Numbers<'v> = Firsts<'v, usize>;

/// The types of declared names.
pub(crate) type Kinds<'v> = Firsts<'v, Kind>;

/// Which item of a list has each name.
pub fn numbers_of<'v, T: Named>(alloc: Global, items: &'v [T]) -> Result<Numbers<'v>, NoMemory>
    ensures { IfOk result (λ n. (q : Bytes) → answer_of n q ≡ key_number T.name_of items.now q) }
{
    let mut numbers = Firsts::new(alloc);
    for (i, item) in items.iter().enumerate() {
        numbers.note(item.name(), i)?;
    }
    Ok(numbers)
}

/// The types of declared names.
pub(crate) fn kinds_of<'v>(alloc: Global, fields: &'v [(Name, Kind)]) -> Result<Kinds<'v>, NoMemory>
    ensures { IfOk result (λ n. (q : Bytes) → answer_of n q ≡ kind_of fields.now q) }
{
    let mut kinds = Firsts::new(alloc);
    for (name, kind) in fields {
        kinds.note(name.as_str(), *kind)?;
    }
    Ok(kinds)
}
