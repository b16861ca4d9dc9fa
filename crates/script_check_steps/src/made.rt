//! What a statement is made into. Clauses see the step through `step_of`.
ghost use Rattle.std.specs.Prelude.{◌≡◌};

use script_types::Step;

/// A statement's step.
#[derive(Drop)]
pub struct MadeStep {
    pub step: Step,
    /// How many tokens the statement has.
    pub tokens: usize,
}

impl MadeStep {
    pub fn new(step: Step, tokens: usize) -> Self
        ensures step { result.step ≡ step }
        ensures tokens { result.tokens ≡ tokens }
    {
        MadeStep { step, tokens }
    }
}
