//! What is wrong with parts that are no deployment, and where.
ghost use Rattle.std.specs.Prelude.{◌≡◌, ◌∷◌, ◌++◌, IfOk, Option, IsUtf8};
ghost use Rattle.deploy_model.specs.Faults.{Fault, here as first_here, unless as unless_so, under as seen_from, Says, Tells};

use slee_value::{NoMemory, Text};
use std::alloc::{AllocError, AllocFailed, Global};

/// What is wrong at a place of a deployment.
#[derive(Debug, Clone, Copy, PartialEq, Eq)]
pub enum DeployBad {
    /// A JSON value of another type, or a number that is no signed 64-bit one.
    WrongType,
    /// A member that has to be there isn't.
    Missing,
    /// A member that no such object has.
    UnknownMember,
    /// A name that isn't of the form of names.
    BadName,
    /// What an earlier one has already.
    Repeated,
    /// The name of nothing.
    UnknownName,
    /// A text, number or word that isn't allowed here.
    Range,
    /// An attribute whose alias belongs to one of another type.
    Alias,
}

/// Why parts aren't a deployment: the first fault, with its place as a JSON pointer.
#[derive(Debug, Drop)]
pub enum DeployFault {
    At { path: Text, kind: DeployBad },
    NoMemory,
}

impl From<AllocError> for DeployFault {
    ghost use Rattle.deploy_model.specs.declared.fault.DeployFault.TheVariants as answers;

    ghost from_gives = { λ _ e. e ≡ answers.NoMemory };

    fn from(_: AllocError) -> Self {
        DeployFault::NoMemory
    }
}

impl<T: Drop> From<AllocFailed<T>> for DeployFault {
    ghost use Rattle.deploy_model.specs.declared.fault.DeployFault.TheVariants as answers;

    ghost from_gives = { λ _ e. e ≡ answers.NoMemory };

    fn from(_: AllocFailed<T>) -> Self {
        DeployFault::NoMemory
    }
}

impl From<NoMemory> for DeployFault {
    ghost use Rattle.deploy_model.specs.declared.fault.DeployFault.TheVariants as answers;

    ghost from_gives = { λ _ e. e ≡ answers.NoMemory };

    fn from(_: NoMemory) -> Self {
        DeployFault::NoMemory
    }
}

/// A fault of the part itself.
pub(crate) fn here(alloc: Global, kind: DeployBad) -> DeployFault
    ensures { Tells (first_here kind) result }
{
    DeployFault::At {
        path: Text::from(String::new(alloc)),
        kind,
    }
}

/// A fault of the part itself unless the test holds.
pub(crate) fn unless(alloc: Global, holds: bool, kind: DeployBad) -> Result<(), DeployFault>
    ensures { Says (unless_so holds kind) result }
{
    if holds {
        Ok(())
    } else {
        Err(here(alloc, kind))
    }
}

/// The path, one step further up.
fn moved(alloc: Global, step: &str, path: &str) -> Result<Text, NoMemory>
    ensures { IfOk result (λ t. t ≡ 47 ∷ step.now ++ path.now) }
{
    let mut moved = String::from_str(alloc, "/")?;
    moved.push_str(step)?;
    moved.push_str(path)?;
    Ok(Text::from(moved))
}

impl DeployFault {
    /// The fault, seen from what has the faulty part at this step.
    pub(crate) fn under(self, alloc: Global, step: &str) -> DeployFault
        ensures { (m : Option Fault) → Tells m self → Tells (seen_from step.now m) result }
    {
        match self {
            DeployFault::NoMemory => DeployFault::NoMemory,
            DeployFault::At { path, kind } => match moved(alloc, step, path.as_str()) {
                Ok(path) => DeployFault::At { path, kind },
                Err(NoMemory) => DeployFault::NoMemory,
            },
        }
    }
}
