//! Lists in which items are found by their names. Contracts see the list of the items.
ghost use Rattle.std.specs.Prelude.{◌≡◌, [], IfOk, bytes_eq, option_copied, position, slice_get};
ghost use Rattle.script_types.specs.Codes.{named};
ghost use Rattle.script_types.specs.Places.{IsIndex};

use crate::Named;
use crate::places::{Places, places_of};
use slee_value::NoMemory;
use std::alloc::Global;
use std::marker::Model;

/// The most items of a list in which a name is found by looking at one after another. Longer lists have an index.
const SCANNED: usize = 8;

/// A list of what scripts name.
#[derive(Drop)]
pub struct NamedList<T: Named> {
    items: Vec<T>,
    /// Nothing where the list is short.
    places: Option<Box<Places>>,
}

impl<T: Named> Model for NamedList<T> {
    ghost use Rattle.std.specs.Prelude.{List};
    ghost use Rattle.script_types.specs.Places.{IsIndex};

    ghost Value = { List T };

    ghost view = { λ l. l.items.items };

    ghost invariant = { λ l. IsIndex T.name_of l.items.items l.places };
}

impl<T: Named> NamedList<T> {
    /// Nothing.
    pub fn new(alloc: Global) -> Self
        ensures { result ≡ [] }
    {
        NamedList {
            items: Vec::new(alloc),
            places: None,
        }
    }

    /// These items.
    pub fn from_items(alloc: Global, items: Vec<T>) -> Result<Self, NoMemory>
    where
        T: Drop,
        ensures { IfOk result (λ l. l ≡ items.items) }
    {
        let places = index_of(alloc, items.as_slice())?;
        Ok(NamedList { items, places })
    }

    /// The items.
    pub fn as_slice(&self) -> &[T]
        ensures { result.now ≡ self.now }
    {
        &self.items
    }

    /// The place of the first item of that name.
    #[tactic(auto, using(crate::proofs::PlaceLemmas::place_from))]
    pub fn place_of(&self, name: &[u8]) -> Option<usize>
        ensures { result ≡ position (λ x. bytes_eq (T.name_of x) name.now) self.now }
    {
        match &self.places {
            Some(places) => places.get(name),
            None => place_among(&self.items, name),
        }
    }

    /// The first item of that name.
    #[tactic(auto, using(crate::proofs::PlaceLemmas::item_at))]
    pub fn find(&self, name: &[u8]) -> Option<&T>
        ensures { option_copied result ≡ named T.name_of name.now self.now }
    {
        let place = self.place_of(name)?;
        item_in(self.as_slice(), place)
    }
}

/// The place of the first item of that name, found by looking at one after another.
fn place_among<T: Named>(items: &[T], name: &[u8]) -> Option<usize>
    ensures { result ≡ position (λ x. bytes_eq (T.name_of x) name.now) items.now }
{
    items.iter().position(|item| item.name().as_bytes() == name)
}

/// The index of these items, where they need one.
fn index_of<T: Named>(alloc: Global, items: &[T]) -> Result<Option<Box<Places>>, NoMemory>
    ensures { IfOk result (λ places. IsIndex T.name_of items.now places) }
{
    if items.len() <= SCANNED {
        return Ok(None);
    }
    let places = places_of(alloc, items)?;
    Ok(Some(Box::new(alloc, places)?))
}

/// The item in a place.
fn item_in<T>(items: &[T], place: usize) -> Option<&T>
    ensures { option_copied result ≡ slice_get items.now place }
{
    items.get(place)
}
