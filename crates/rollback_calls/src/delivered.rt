//! What a delivery comes to.
ghost use Rattle.std.specs.Prelude.{◌≡◌, IfOk};

use script_meaning::{Key, Outcome};
use slee_effect::Effects;
use slee_value::NoMemory;
use std::alloc::Global;

/// How the handler and its callbacks ended, and the effects that stand.
#[derive(Debug, Drop)]
pub struct Delivered {
    pub outcome: Outcome,
    /// Nothing where the callback didn't run.
    pub exception: Option<Outcome>,
    pub rolled_back: Option<Outcome>,
    pub effects: Effects,
}

impl Delivered {
    /// A copy.
    pub fn copy(&self, alloc: Global) -> Result<Self, NoMemory>
        ensures { IfOk result (λ d. d ≡ self.now) }
    {
        Ok(Delivered {
            outcome: self.outcome,
            exception: self.exception,
            rolled_back: self.rolled_back,
            effects: self.effects.copy(alloc)?,
        })
    }
}

/// How far a delivery comes over what is known.
#[derive(Debug, Drop)]
pub enum Step {
    /// The first key of which nothing is known.
    Need(Key),
    /// Its end.
    Done(Delivered),
}
