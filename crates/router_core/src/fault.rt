//! Why bytes give no state.
ghost use Rattle.std.specs.Prelude.{◌≡◌};

use slee_value::NoMemory;
use snapshot_read::ReadFault;

/// Why no state was restored.
#[derive(Clone, Copy, Debug, PartialEq, Eq)]
pub enum StateFault {
    /// No well-formed state of the deployment has these bytes.
    Bad,
    NoMemory,
}

impl From<NoMemory> for StateFault {
    ghost use Rattle.router_core.specs.declared.fault.StateFault.TheVariants.{NoMemory as Refused};

    ghost from_gives = { λ _ e. e ≡ Refused };

    fn from(_: NoMemory) -> Self {
        StateFault::NoMemory
    }
}

impl From<ReadFault> for StateFault {
    ghost use Rattle.router_core.specs.Restoring.{fault_of};

    ghost from_gives = { λ f e. e ≡ fault_of f };

    fn from(fault: ReadFault) -> Self {
        match fault {
            ReadFault::Bad => StateFault::Bad,
            ReadFault::NoMemory => StateFault::NoMemory,
        }
    }
}
