//! The variables that are visible at a place of a script, found by their names without a scan. Clauses see a list of them as a `Scope`.
ghost use Rattle.std.specs.Prelude.{◌≡◌, ◌++◌, ◌∷◌, [], OnOk, OnErr, bytes_eq, length, option_copied, position, slice_get, take};
ghost use Rattle.std.specs.HashMap.{get_by};
ghost use Rattle.script_types.specs.Scopes.{Variable};
ghost use Rattle.script_check_terms.specs.KeptPlaces.{Finds, kept_place};
ghost use Rattle.script_check_terms.specs.ScopeOf.{holding_of};

use crate::scope::{Holding, Local};
use slee_value::NoMemory;
use std::alloc::Global;
use std::collections::HashMap;
use std::marker::Model;

/// The variables that are visible, in their order. One is found by its name without a scan.
#[derive(Drop)]
pub struct Locals<'a> {
    locals: Vec<Local<'a>>,
    /// The place of each that is visible, and of names that were.
    places: HashMap<&'a [u8], usize>,
}

impl<'a> Model for Locals<'a> {
    ghost use Rattle.std.specs.Prelude.{List};
    ghost use Rattle.script_types.specs.Scopes.{Variable};
    ghost use Rattle.script_check_terms.specs.KeptPlaces.{Finds};

    ghost Value = { List Variable };

    ghost view = { λ l. l.locals.items };

    ghost invariant = { λ l. Finds l.places l.locals.items };
}

/// The place that is kept for a name.
fn kept_for(places: &HashMap<&[u8], usize>, name: &[u8]) -> Option<usize>
    ensures { result ≡ get_by (λ k. bytes_eq name.now k.now) places.now }
{
    places.get(name).copied()
}

/// The variable in a place.
fn local_in<'l, 'a>(locals: &'l [Local<'a>], place: usize) -> Option<&'l Local<'a>>
    ensures { option_copied result ≡ slice_get locals.now place }
{
    locals.get(place)
}

/// The place that is kept for a name, where the variable there has it.
fn place_kept(locals: &[Local], name: &[u8], kept: Option<usize>) -> Option<usize>
    ensures { result ≡ kept_place locals.now name.now kept }
{
    let place = kept?;
    let local = local_in(locals, place)?;
    if local.is_named(name) {
        Some(place)
    } else {
        None
    }
}

/// The place behind all is kept for the name, unless a variable has it.
fn keep_place<'a>(
    places: &mut HashMap<&'a [u8], usize>,
    locals: &[Local],
    name: &'a [u8],
) -> Result<(), NoMemory>
    requires { Finds places.old locals.now }
    ensures here { Finds places.new locals.now }
    ensures next { OnOk result ((x : Variable) → x.name ≡ name.now → Finds places.new (locals.now ++ x ∷ [])) }
{
    if place_kept(locals, name, kept_for(&*places, name)).is_some() {
        return Ok(());
    }
    places.insert(name, locals.len())?;
    Ok(())
}

impl<'a> Locals<'a> {
    /// None.
    pub fn new(alloc: Global) -> Self
        ensures { result ≡ [] }
    {
        Locals {
            locals: Vec::new(alloc),
            places: HashMap::new(alloc),
        }
    }

    /// How many there are.
    pub fn len(&self) -> usize
        ensures { result ≡ length self.now }
    {
        self.locals.len()
    }

    /// The variable in a place.
    pub(crate) fn get(&self, place: usize) -> Option<&Local<'a>>
        ensures { option_copied result ≡ slice_get self.now place }
    {
        local_in(&self.locals, place)
    }

    /// The place of the first of that name.
    pub(crate) fn place_of(&self, name: &[u8]) -> Option<usize>
        ensures { result ≡ position (λ x. bytes_eq x.name name.now) self.now }
    {
        place_kept(&self.locals, name, kept_for(&self.places, name))
    }

    /// Adds a variable behind all others.
    pub fn add(&mut self, name: &'a [u8], holds: Holding) -> Result<(), NoMemory>
        ensures ok { OnOk result (self.new ≡ self.old ++ record { name = name.now; holds = holding_of holds } ∷ []) }
        ensures err { OnErr result (self.new ≡ self.old) }
    {
        keep_place(&mut self.places, &self.locals, name)?;
        self.locals.push(Local::new(name, holds))?;
        Ok(())
    }

    /// Forgets all from that place on.
    pub fn truncate(&mut self, place: usize)
        ensures { self.new ≡ take place self.old }
    {
        self.locals.truncate(place);
    }
}
