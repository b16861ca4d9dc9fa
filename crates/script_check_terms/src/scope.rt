//! What the names of variables stand for at a place of a script.
ghost use Rattle.std.specs.Prelude.{◌≡◌, bytes_eq, is_some, option_map};
ghost use Rattle.script_types.specs.Elaboration.{variable_named, value_named, child_named};
ghost use Rattle.script_types.specs.Scopes.{visible, check_new};
ghost use Rattle.script_check_terms.specs.Answers.{Gives};
ghost use Rattle.script_check_terms.specs.ScopeOf.{holding_of, found_of, value_at_of, child_at_of};

use crate::{Locals, ScriptFault, check_known, check_test};
use script_types::{CheckBad, Misuse};
use slee_value::Kind;
use std::marker::Model;

/// What a variable holds: a value of a type, or a child entity with the number of its block.
#[derive(Debug, Clone, Copy, PartialEq, Eq)]
pub enum Holding {
    Value(Kind),
    Child(u32),
}

/// A variable that is visible.
#[derive(Drop)]
pub struct Local<'a> {
    name: &'a [u8],
    holds: Holding,
}

impl<'a> Model for Local<'a> {
    ghost use Rattle.script_types.specs.Scopes.{Variable};
    ghost use Rattle.script_check_terms.specs.ScopeOf.{holding_of};

    ghost Value = { Variable };

    ghost view = { λ l. record { name = l.name.now; holds = holding_of l.holds } };
}

impl<'a> Local<'a> {
    pub fn new(name: &'a [u8], holds: Holding) -> Self
        ensures { result ≡ record { name = name.now; holds = holding_of holds } }
    {
        Local { name, holds }
    }

    pub fn is_named(&self, name: &[u8]) -> bool
        ensures { result ≡ bytes_eq self.now.name name.now }
    {
        self.name == name
    }

    pub fn holds(&self) -> Holding
        ensures { holding_of result ≡ self.now.holds }
    {
        self.holds
    }
}

/// A variable by its place in the scope, with what it holds.
#[derive(Drop)]
struct Found {
    place: usize,
    holds: Holding,
}

fn variable_named(scope: &Locals, name: &[u8]) -> Option<Found>
    ensures { option_map found_of result ≡ variable_named scope.now name.now }
{
    let place = scope.place_of(name)?;
    let local = scope.get(place)?;
    Some(Found {
        place,
        holds: local.holds(),
    })
}

/// Whether a variable of that name is visible.
#[tactic(auto, using(crate::proofs::LocalLemmas::visible_is))]
pub fn is_visible(scope: &Locals, name: &[u8]) -> bool
    ensures { result ≡ is_some (visible scope.now name.now) }
{
    scope.place_of(name).is_some()
}

/// A new name must not be visible.
pub fn check_new(scope: &Locals, name: &[u8], at: usize) -> Result<(), ScriptFault>
    ensures { Gives (λ x. x) result (check_new scope.now name.now at) }
{
    check_test(CheckBad::Name, at, !is_visible(scope, name))
}

/// A value variable by its place, with its type.
#[derive(Debug, Drop)]
pub struct ValueAt {
    pub place: usize,
    pub kind: Kind,
}

/// A child variable by its place, with the number of its block.
#[derive(Debug, Drop)]
pub struct ChildAt {
    pub place: usize,
    pub block: u32,
}

/// A variable where a value is wanted.
pub fn check_value(scope: &Locals, name: &[u8], at: usize) -> Result<ValueAt, ScriptFault>
    ensures { Gives value_at_of result (value_named scope.now name.now at) }
{
    let found = check_known(at, variable_named(scope, name))?;
    match found.holds {
        Holding::Value(kind) => Ok(ValueAt {
            place: found.place,
            kind,
        }),
        Holding::Child(_) => Err(ScriptFault::At(Misuse {
            at,
            kind: CheckBad::Place,
        })),
    }
}

/// A variable where a child is wanted.
pub fn check_child(scope: &Locals, name: &[u8], at: usize) -> Result<ChildAt, ScriptFault>
    ensures { Gives child_at_of result (child_named scope.now name.now at) }
{
    let found = check_known(at, variable_named(scope, name))?;
    match found.holds {
        Holding::Child(block) => Ok(ChildAt {
            place: found.place,
            block,
        }),
        Holding::Value(_) => Err(ScriptFault::At(Misuse {
            at,
            kind: CheckBad::Mismatch,
        })),
    }
}
