//! What a step does.
ghost use Rattle.std.specs.Prelude.{◌≡◌, IfOk};

use signal_script::Signal;
use slee_value::{ActivityId, NoMemory};
use std::alloc::Global;

/// What a step does.
#[derive(Debug, Drop)]
pub enum Choice {
    /// A line is taken.
    Input(Signal),
    /// A service is marked for the front event of this activity, and may get a root entity.
    Initial(ActivityId),
    /// The front event of this activity reaches the first entity, in order, that has still to receive it.
    Deliver(ActivityId),
    /// The front event of this activity is done.
    Finish(ActivityId),
}

impl Choice {
    pub fn copy(&self, alloc: Global) -> Result<Self, NoMemory>
        ensures { IfOk result (λ choice. choice ≡ self.now) }
    {
        match self {
            Choice::Input(signal) => Ok(Choice::Input(signal.copy(alloc)?)),
            Choice::Initial(activity) => Ok(Choice::Initial(*activity)),
            Choice::Deliver(activity) => Ok(Choice::Deliver(*activity)),
            Choice::Finish(activity) => Ok(Choice::Finish(*activity)),
        }
    }
}
