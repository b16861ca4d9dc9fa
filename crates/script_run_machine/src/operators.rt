//! The operators `and` and `or`, where the left side alone is not the whole.
ghost use Rattle.std.specs.Prelude.{◌≡◌};
ghost use Rattle.script_meaning.specs.Values.{apply, flag};
ghost use Rattle.script_run_machine.specs.Agreeing.{AgreesAs};

use crate::{Machine, Stop};
use script_types::Joint;

impl Machine<'_> {
    /// An operator between two truth values, to which the left one left the choice.
    pub fn choose(&self, joint: Joint, x: bool, y: bool) -> Result<bool, Stop>
        ensures { AgreesAs flag (apply joint (flag x) (flag y)) self.now self.now result }
    {
        match joint {
            Joint::Both | Joint::Either => Ok(y),
            _ => Err(Stop::Unchecked),
        }
    }
}
