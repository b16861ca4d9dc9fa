//! Why scripts make no program. Clauses tie an answer to its definition by `Builds`.
ghost use Rattle.std.specs.Prelude.{◌≡◌};

use script_types::{CodePlace, Misuse};
use slee_value::NoMemory;

/// The first fault of all scripts, with the script in which it stands, or want of memory.
#[derive(Debug, Drop)]
pub(crate) enum CodeFault {
    At { place: CodePlace, misuse: Misuse },
    NoMemory,
}

impl From<NoMemory> for CodeFault {
    ghost use Rattle.handler_check.specs.declared.code_fault.CodeFault.TheVariants as answers;

    ghost from_gives = { λ _ e. e ≡ answers.NoMemory };

    fn from(_: NoMemory) -> Self {
        CodeFault::NoMemory
    }
}
