//! The gate by which workers run attempts.

use slee_descriptor::Deployment;
use slee_value::NoMemory;
use tx_attempt::{Attempt, Progress, Ticket};

/// By it each worker runs each attempt, while it hasn't the turn.
pub trait Gate {
    ghost use Rattle.std.specs.Prelude.{◌≡◌, IfOk, OnErr};
    ghost use Rattle.script_types.specs.ProgramOf.{IsChecked, kept_program};
    ghost use Rattle.rollback_calls.specs.Prepared.{CanDeliver};
    ghost use Rattle.tx_attempt.specs.Attempts.{HasAsked, IsSameTask, Progresses};

    /// Runs the attempt at the delivery of a ticket over what it knows.
    fn run(
        &self,
        worker: u64,
        ticket: &Ticket,
        attempt: &mut Attempt,
        deployment: &Deployment,
    ) -> Result<Progress, NoMemory>
        requires checked { IsChecked deployment.now.codes }
        requires handled { CanDeliver (kept_program deployment.now.codes) attempt.old.delivery }
        requires asked { HasAsked (kept_program deployment.now.codes) attempt.old }
        ensures same { IsSameTask attempt.old attempt.new }
        ensures progress { IfOk result (λ progress. Progresses (kept_program deployment.now.codes) attempt.new progress) }
        ensures err { OnErr result (attempt.new ≡ attempt.old) };
}

/// The gate that lets each attempt through.
#[derive(Clone, Copy, Debug)]
pub struct OpenGate;

impl Gate for OpenGate {
    fn run(
        &self,
        _worker: u64,
        _ticket: &Ticket,
        attempt: &mut Attempt,
        deployment: &Deployment,
    ) -> Result<Progress, NoMemory> {
        attempt.run(deployment)
    }
}
