//! Values in effects.
ghost use Rattle.std.specs.Prelude.{◌≡◌, IfOk};

use slee_value::{NoMemory, Value};
use std::alloc::Global;

/// A value in an effect. An activity or a timer that the same list of effects creates has no number yet.
#[derive(Debug, Drop)]
pub enum Val {
    Plain(Value),
    NewActivity(u32),
    NewTimer(u32),
}

impl Val {
    /// A copy.
    pub fn copy(&self, alloc: Global) -> Result<Self, NoMemory>
        ensures { IfOk result (λ v. v ≡ self.now) }
    {
        match self {
            Val::Plain(value) => Ok(Val::Plain(value.copy(alloc)?)),
            Val::NewActivity(number) => Ok(Val::NewActivity(*number)),
            Val::NewTimer(number) => Ok(Val::NewTimer(*number)),
        }
    }
}
