//! Which item of a list has each key, kept beside the list.
ghost use Rattle.std.specs.Prelude.{◌≡◌, ◌<◌, ◌^◌, Option, IfOk, OnOk, IfSome};
ghost use Rattle.script_tree.specs.Tree.{Bytes};
ghost use Rattle.slee_descriptor.specs.Keys.{number_in};
ghost use Rattle.deploy_model.specs.Firsts.{only_at};
ghost use Rattle.deploy_model.specs.Rules.{or_later};
ghost use Rattle.deploy_model.specs.Tables.{key_number};

use indexmap::IndexMap;
use script_types::Named;
use slee_value::NoMemory;
use std::alloc::Global;

/// From keys to the numbers of the first items that have them.
#[derive(Drop)]
pub(crate) struct Keys {
    numbers: IndexMap<String, u32>,
}

impl Keys {
    fn new(alloc: Global) -> Self
        ensures { (q : Bytes) → number_in result q ≡ Option.None }
    {
        Keys {
            numbers: IndexMap::new(alloc),
        }
    }

    /// The key is that of the item, if it was none's before.
    fn note(&mut self, alloc: Global, key: &str, number: u32) -> Result<(), NoMemory>
        ensures { OnOk result ((q : Bytes) → number_in self.new q ≡ or_later (number_in self.old q) (only_at key.now number q)) }
    {
        if self.numbers.get(key).is_some() {
            return Ok(());
        }
        self.numbers.insert(String::from_str(alloc, key)?, number)?;
        Ok(())
    }

    /// The number of the first item that has the key.
    pub(crate) fn get(&self, key: &str) -> Option<u32>
        ensures { result ≡ number_in self.now key.now }
    {
        self.numbers.get(key).copied()
    }
}

/// A place as the number of an item. A list of more items than there are numbers finds no memory.
pub(crate) fn item_number(place: usize) -> Result<u32, NoMemory>
    ensures { IfOk result (λ n. n ≡ place) }
{
    match u32::try_from(place) {
        Ok(number) => Ok(number),
        Err(_) => Err(NoMemory),
    }
}

/// Which item of a list has each key.
pub(crate) fn keys_of<T: Named>(alloc: Global, items: &[T]) -> Result<Keys, NoMemory>
    ensures { IfOk result (λ keys. (q : Bytes) → number_in keys q ≡ key_number T.name_of items.now q) }
{
    let mut keys = Keys::new(alloc);
    for (i, item) in items.iter().enumerate() {
        keys.note(alloc, item.name(), item_number(i)?)?;
    }
    Ok(keys)
}

/// A place as the number of an item, where items have numbers.
pub(crate) fn number_at(place: Option<usize>) -> Option<u32>
    requires { IfSome place (λ p. p < 2 ^ 32) }
    ensures { result ≡ place }
{
    let place = place?;
    Some(place as u32)
}
