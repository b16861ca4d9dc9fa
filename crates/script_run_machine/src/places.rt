//! Places where values stand that terms give. Nothing is copied before it is known what for.
ghost use Rattle.std.specs.Prelude.{◌≡◌, IfOk, slice_get};
ghost use Rattle.std.specs.Option.{option_copied};
ghost use Rattle.script_meaning.specs.Observing as read;
ghost use Rattle.script_run_machine.specs.Agreeing.{AgreesAs};
ghost use Rattle.script_run_machine.specs.Lending.{value_lent, value_at, standing, held_by, set_by};

use crate::variables::variable_at;
use crate::{Lent, Machine, Stop, Variable};
use slee_effect::{Effect, Val};
use slee_value::{Kind, NoMemory};
use std::alloc::Global;

/// Where a value stands. It stays there while only terms run, since they change neither variables nor effects.
#[derive(Debug, Drop)]
pub enum Place<'a> {
    /// Outside the machine: in the code, in the arguments, in an answer or in an effect before the run.
    Outside(Lent<'a>),
    /// In the variable in this place.
    Variable(usize),
    /// In the run's effect in this place.
    Effect(usize),
    /// Nowhere else, since it was made.
    Made(Val),
}

/// The value of the variable in this place.
fn held_at(variables: &[Variable], place: usize) -> Lent
    ensures { value_lent result ≡ held_by (slice_get variables.now place) }
{
    let Some(variable) = variable_at(variables, place) else {
        return Lent::Initial(Kind::Int);
    };
    match variable.as_value() {
        Some(value) => Lent::Set(value),
        None => Lent::Initial(Kind::Int),
    }
}

fn effect_at(effects: &[Effect], place: usize) -> Option<&Effect>
    ensures { option_copied result ≡ slice_get effects.now place }
{
    effects.get(place)
}

/// The value that the effect in this place gives to a field or an attribute.
pub fn set_at(effects: &[Effect], place: usize) -> Lent
    ensures { value_lent result ≡ set_by (slice_get effects.now place) }
{
    match effect_at(effects, place) {
        Some(Effect::SetField { value, .. }) => Lent::Set(value),
        Some(Effect::SetAttr { value, .. }) => Lent::Set(value),
        _ => Lent::Initial(Kind::Int),
    }
}

impl Machine<'_> {
    /// The place of a variable that holds a value.
    #[inline(always)]
    #[tactic(auto, using(crate::proofs::VariableLemmas::value_found), unfolding(crate::specs::Lending::standing))]
    pub fn variable_place<'a>(&self, place: usize) -> Result<Place<'a>, Stop>
        ensures { AgreesAs (value_at (standing self.now)) (read.value place) self.now self.now result }
    {
        let Some(variable) = variable_at(&self.variables, place) else {
            return Err(Stop::Unchecked);
        };
        match variable.as_value() {
            Some(_) => Ok(Place::Variable(place)),
            None => Err(Stop::Unchecked),
        }
    }

    /// The value that stands in a place.
    #[inline(always)]
    #[tactic(auto, unfolding(crate::specs::Lending::standing))]
    pub fn lend<'b, 'a: 'b>(&'b self, place: &'b Place<'a>) -> Lent<'b>
        ensures { value_lent result ≡ value_at (standing self.now) place.now }
    {
        match place {
            Place::Outside(lent) => *lent,
            Place::Variable(place) => held_at(&self.variables, *place),
            Place::Effect(place) => set_at(&self.effects, *place),
            Place::Made(value) => Lent::Set(value),
        }
    }

    /// The value that stands in a place, for oneself.
    pub fn owned(&self, alloc: Global, place: Place) -> Result<Val, NoMemory>
        ensures { IfOk result (λ x. x ≡ value_at (standing self.now) place.entry) }
    {
        match place {
            Place::Made(value) => Ok(value),
            other => self.lend(&other).copy(alloc),
        }
    }
}
