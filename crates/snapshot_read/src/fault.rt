//! Why bytes are no rows.
ghost use Rattle.std.specs.Prelude.{◌≡◌};

use slee_value::{NoMemory, PartFault};
use std::alloc::{AllocError, AllocFailed};

/// Why no rows were read.
#[derive(Clone, Copy, Debug, PartialEq, Eq)]
pub enum ReadFault {
    /// No state has these bytes.
    Bad,
    NoMemory,
}

impl From<NoMemory> for ReadFault {
    ghost use Rattle.snapshot_read.specs.declared.fault.ReadFault.TheVariants.{NoMemory as Refused};

    ghost from_gives = { λ _ e. e ≡ Refused };

    fn from(_: NoMemory) -> Self {
        ReadFault::NoMemory
    }
}

impl From<AllocError> for ReadFault {
    ghost use Rattle.snapshot_read.specs.declared.fault.ReadFault.TheVariants.{NoMemory as Refused};

    ghost from_gives = { λ _ e. e ≡ Refused };

    fn from(_: AllocError) -> Self {
        ReadFault::NoMemory
    }
}

impl<T: Drop> From<AllocFailed<T>> for ReadFault {
    ghost use Rattle.snapshot_read.specs.declared.fault.ReadFault.TheVariants.{NoMemory as Refused};

    ghost from_gives = { λ _ e. e ≡ Refused };

    fn from(_: AllocFailed<T>) -> Self {
        ReadFault::NoMemory
    }
}

impl From<PartFault> for ReadFault {
    ghost use Rattle.snapshot_read.specs.Faults.{fault_of};

    ghost from_gives = { λ f e. e ≡ fault_of f };

    fn from(fault: PartFault) -> Self {
        match fault {
            PartFault::Bad { left: _, kind: _ } => ReadFault::Bad,
            PartFault::NoMemory => ReadFault::NoMemory,
        }
    }
}
