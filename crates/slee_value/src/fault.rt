//! Why bytes are no value.
ghost use Rattle.std.specs.Prelude.{◌≡◌};

use crate::NoMemory;
use std::alloc::{AllocError, AllocFailed};

/// What is wrong with bytes that no value begins with.
#[derive(Clone, Copy, Debug, PartialEq, Eq)]
pub enum ValueBad {
    /// No type has this byte.
    Tag,
    /// The bytes end too early.
    Short,
    /// The text isn't UTF-8.
    Utf8,
    /// A flag is 0 or 1.
    Flag,
}

/// Why no value was read.
#[derive(Clone, Copy, Debug, PartialEq, Eq)]
pub enum ValueFault {
    /// No value begins the bytes: `at` is the first byte that can't go on, or how many there are where they
    /// end too early.
    Bad { at: usize, kind: ValueBad },
    NoMemory,
}

/// Why a part of something longer was not read.
#[derive(Clone, Copy, Debug, PartialEq, Eq)]
pub enum PartFault {
    /// So many bytes are left from the first one that can't go on, and none where they end too early.
    Bad { left: usize, kind: ValueBad },
    NoMemory,
}

impl From<NoMemory> for PartFault {
    ghost use Rattle.slee_value.specs.declared.fault.PartFault.TheVariants.{NoMemory as Refused};

    ghost from_gives = { λ _ e. e ≡ Refused };

    fn from(_: NoMemory) -> Self {
        PartFault::NoMemory
    }
}

impl From<AllocError> for PartFault {
    ghost use Rattle.slee_value.specs.declared.fault.PartFault.TheVariants.{NoMemory as Refused};

    ghost from_gives = { λ _ e. e ≡ Refused };

    fn from(_: AllocError) -> Self {
        PartFault::NoMemory
    }
}

impl<T: Drop> From<AllocFailed<T>> for PartFault {
    ghost use Rattle.slee_value.specs.declared.fault.PartFault.TheVariants.{NoMemory as Refused};

    ghost from_gives = { λ _ e. e ≡ Refused };

    fn from(_: AllocFailed<T>) -> Self {
        PartFault::NoMemory
    }
}
