//! What the first of each name stands for, by an index over texts that a JSON value lends.
ghost use Rattle.std.specs.Prelude.{◌≡◌, Option, OnOk};
ghost use Rattle.script_tree.specs.Tree.{Bytes};
ghost use Rattle.deploy_model.specs.Rules.{or_later};
ghost use Rattle.deploy_schema.specs.Numbers.{answer_of, where_named};

use indexmap::IndexMap;
use slee_value::NoMemory;
use std::alloc::Global;

/// From names to what the first of each stands for.
#[derive(Drop)]
pub(crate) struct Firsts<'v, V> {
    found: IndexMap<&'v str, V>,
}

impl<'v, V: Copy> Firsts<'v, V> {
    pub(crate) fn new(alloc: Global) -> Self
        ensures { (q : Bytes) → answer_of result q ≡ Option.None }
    {
        Firsts {
            found: IndexMap::new(alloc),
        }
    }

    /// The name stands for the value, if it stood for nothing before.
    pub(crate) fn note(&mut self, name: &'v str, value: V) -> Result<(), NoMemory>
        ensures { OnOk result ((q : Bytes) → answer_of self.new q ≡ or_later (answer_of self.old q) (where_named value (Option.Some name.now) q)) }
    {
        if self.found.get(&name).is_some() {
            return Ok(());
        }
        self.found.insert(name, value)?;
        Ok(())
    }

    /// What the name stands for.
    pub(crate) fn get(&self, name: &str) -> Option<V>
        ensures { result ≡ answer_of self.now name.now }
    {
        self.found.get(&name).copied()
    }
}

/// Which item of a list has each name.
pub(crate) type Numbers<'v> = Firsts<'v, usize>;
