//! Why a script can't be checked to its end. Clauses tie an answer to its definition by `Gives`.
ghost use Rattle.std.specs.Prelude.{◌≡◌};
ghost use Rattle.script_types.specs.TypingResult.{tested, known};
ghost use Rattle.script_check_terms.specs.Answers.{Gives};

use script_types::{CheckBad, Misuse};
use slee_value::NoMemory;
use std::alloc::{AllocError, AllocFailed};

/// The first fault of a script, or want of memory.
#[derive(Debug, Drop)]
pub enum ScriptFault {
    At(Misuse),
    NoMemory,
}

impl From<NoMemory> for ScriptFault {
    ghost use Rattle.script_check_terms.specs.declared.fault.ScriptFault.TheVariants as answers;

    ghost from_gives = { λ _ e. e ≡ answers.NoMemory };

    fn from(_: NoMemory) -> Self {
        ScriptFault::NoMemory
    }
}

impl From<AllocError> for ScriptFault {
    ghost use Rattle.script_check_terms.specs.declared.fault.ScriptFault.TheVariants as answers;

    ghost from_gives = { λ _ e. e ≡ answers.NoMemory };

    fn from(_: AllocError) -> Self {
        ScriptFault::NoMemory
    }
}

impl<T: Drop> From<AllocFailed<T>> for ScriptFault {
    ghost use Rattle.script_check_terms.specs.declared.fault.ScriptFault.TheVariants as answers;

    ghost from_gives = { λ _ e. e ≡ answers.NoMemory };

    fn from(_: AllocFailed<T>) -> Self {
        ScriptFault::NoMemory
    }
}

/// A fault unless the test holds.
pub fn check_test(kind: CheckBad, at: usize, holds: bool) -> Result<(), ScriptFault>
    ensures { Gives (λ x. x) result (tested kind at holds) }
{
    if holds {
        Ok(())
    } else {
        Err(ScriptFault::At(Misuse { at, kind }))
    }
}

/// What a name stands for; `at` tokens stand before the name.
pub fn check_known<T: Drop>(at: usize, found: Option<T>) -> Result<T, ScriptFault>
    ensures { Gives (λ x. x) result (known at found) }
{
    match found {
        Some(item) => Ok(item),
        None => Err(ScriptFault::At(Misuse {
            at,
            kind: CheckBad::Name,
        })),
    }
}
