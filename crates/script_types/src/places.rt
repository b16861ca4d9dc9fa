//! Which item of a list has each name. Clauses see an index through `place_in`.
ghost use Rattle.std.specs.Prelude.{◌≡◌, Option, IfOk, OnOk, OnErr, bytes_eq};
ghost use Rattle.std.specs.List.{position_from};
ghost use Rattle.std.specs.Option.{option_or};
ghost use Rattle.script_tree.specs.Tree.{Bytes};
ghost use Rattle.script_types.specs.Places.{place_in, only_at};

use crate::Named;
use slee_value::NoMemory;
use std::alloc::Global;
use std::collections::HashMap;

/// From names to the places of the first items that have them.
#[derive(Drop)]
pub struct Places {
    found: HashMap<Vec<u8>, usize>,
}

impl Places {
    /// No names, with room for so many.
    pub fn with_room(alloc: Global, room: usize) -> Result<Self, NoMemory>
        ensures { IfOk result (λ p. (q : Bytes) → place_in p q ≡ Option.None) }
    {
        let found = HashMap::with_capacity(alloc, room)?;
        Ok(Places { found })
    }

    /// The name is that of the item in this place, if it was none's before.
    pub fn note(&mut self, alloc: Global, name: &[u8], place: usize) -> Result<(), NoMemory>
        ensures noted { OnOk result ((q : Bytes) → place_in self.new q ≡ option_or (place_in self.old q) (only_at name.now place q)) }
        ensures same { OnErr result ((q : Bytes) → place_in self.new q ≡ place_in self.old q) }
    {
        if self.found.get(name).is_some() {
            return Ok(());
        }
        self.found.insert(Vec::from_slice(alloc, name)?, place)?;
        Ok(())
    }

    /// The place of the first item that has the name.
    pub fn get(&self, name: &[u8]) -> Option<usize>
        ensures { result ≡ place_in self.now name.now }
    {
        self.found.get(name).copied()
    }
}

/// Each item's name is noted with its place.
fn note_all<T: Named>(alloc: Global, places: &mut Places, items: &[T]) -> Result<(), NoMemory>
    ensures { OnOk result ((q : Bytes) → place_in places.new q ≡ option_or (place_in places.old q) (position_from (λ x. bytes_eq (T.name_of x) q) 0 items.now)) }
{
    for (i, item) in items.iter().enumerate() {
        places.note(alloc, item.name().as_bytes(), i)?;
    }
    Ok(())
}

/// Which item of a list has each name.
pub(crate) fn places_of<T: Named>(alloc: Global, items: &[T]) -> Result<Places, NoMemory>
    ensures { IfOk result (λ p. (q : Bytes) → place_in p q ≡ position_from (λ x. bytes_eq (T.name_of x) q) 0 items.now) }
{
    let mut places = Places::with_room(alloc, items.len())?;
    note_all(alloc, &mut places, items)?;
    Ok(places)
}
