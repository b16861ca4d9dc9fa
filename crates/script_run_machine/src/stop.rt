//! Why a run stops before its end.
ghost use Rattle.std.specs.Prelude.{◌≡◌};
ghost use Rattle.script_run_machine.specs.declared.stop.Stop.TheVariants as stop;

use script_meaning::{FailKind, Key};
use slee_value::{NoMemory, Text};
use std::alloc::{AllocError, AllocFailed};

/// Why a run stops before its end. What is large stands behind a pointer, since each step hands one on or a value.
#[derive(Debug, Drop)]
pub enum Stop {
    NoMemory,
    /// A failure whose text is its kind's word.
    Broken(FailKind),
    /// A failure with a text of its own.
    Thrown(Box<Text>),
    /// Nothing is known of this key.
    Need(Box<Key>),
    /// No checked script comes here.
    Unchecked,
}

impl From<NoMemory> for Stop {
    ghost from_gives = { λ _ e. e ≡ stop.NoMemory };

    fn from(_: NoMemory) -> Self {
        Stop::NoMemory
    }
}

impl From<AllocError> for Stop {
    ghost from_gives = { λ _ e. e ≡ stop.NoMemory };

    fn from(_: AllocError) -> Self {
        Stop::NoMemory
    }
}

impl<T: Drop> From<AllocFailed<T>> for Stop {
    ghost from_gives = { λ _ e. e ≡ stop.NoMemory };

    fn from(_: AllocFailed<T>) -> Self {
        Stop::NoMemory
    }
}
