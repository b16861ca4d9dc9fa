//! Why no parts are built.
ghost use Rattle.std.specs.Prelude.{◌≡◌, Option};
ghost use Rattle.deploy_schema.specs.Pointers.{escaped};
ghost use Rattle.deploy_json.specs.Sources.{Misread, Tells, under};

use deploy_schema::{escaped_step, moved};
use handler_lang::SyntaxFault;
use slee_value::{NoMemory, Text};
use std::alloc::{AllocError, AllocFailed, Global};

/// Why no parts are built: the first script that can't be read, with its place as a JSON pointer.
#[derive(Debug, Drop)]
pub(crate) enum PartsFault {
    Misread { path: Text, fault: SyntaxFault },
    NoMemory,
}

impl From<AllocError> for PartsFault {
    ghost use Rattle.deploy_json.specs.declared.parts_fault.PartsFault.TheVariants as answers;

    ghost from_gives = { λ _ e. e ≡ answers.NoMemory };

    fn from(_: AllocError) -> Self {
        PartsFault::NoMemory
    }
}

impl<T: Drop> From<AllocFailed<T>> for PartsFault {
    ghost use Rattle.deploy_json.specs.declared.parts_fault.PartsFault.TheVariants as answers;

    ghost from_gives = { λ _ e. e ≡ answers.NoMemory };

    fn from(_: AllocFailed<T>) -> Self {
        PartsFault::NoMemory
    }
}

impl From<NoMemory> for PartsFault {
    ghost use Rattle.deploy_json.specs.declared.parts_fault.PartsFault.TheVariants as answers;

    ghost from_gives = { λ _ e. e ≡ answers.NoMemory };

    fn from(_: NoMemory) -> Self {
        PartsFault::NoMemory
    }
}

impl PartsFault {
    /// The fault, seen from what has the script at this step, which needs no escape.
    pub(crate) fn under(self, alloc: Global, step: &str) -> PartsFault
        ensures { (m : Option Misread) → Tells m self → Tells (under step.now m) result }
    {
        match self {
            PartsFault::NoMemory => PartsFault::NoMemory,
            PartsFault::Misread { path, fault } => match moved(alloc, step, path.as_str()) {
                Ok(path) => PartsFault::Misread { path, fault },
                Err(NoMemory) => PartsFault::NoMemory,
            },
        }
    }

    /// The fault, seen from the object that has the script under this name.
    pub(crate) fn under_name(self, alloc: Global, name: &str) -> PartsFault
        ensures { (m : Option Misread) → Tells m self → Tells (under (escaped name.now) m) result }
    {
        match escaped_step(alloc, name) {
            Ok(step) => self.under(alloc, step.as_str()),
            Err(NoMemory) => PartsFault::NoMemory,
        }
    }
}
