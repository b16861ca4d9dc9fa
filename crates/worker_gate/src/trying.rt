//! Attempts outside the turn.
ghost use Rattle.script_types.specs.ProgramOf.{IsChecked, kept_program};
ghost use Rattle.worker_gate.specs.Hands.{IsInHand, IsTrying, WasTried};

use crate::gate::Gate;
use crate::hand::{Held, Tried};
use crate::recall::{Answers, Recall, take_answer};
use slee_descriptor::Deployment;
use slee_value::NoMemory;
use std::alloc::Global;
use tx_attempt::{Attempt, Progress, Ticket};

/// Runs an attempt by the gate, and again with each answer at hand that it asks for.
fn run_by<G: Gate>(
    gate: &G,
    worker: u64,
    deployment: &Deployment,
    recall: &mut Recall,
    ticket: Ticket,
    mut attempt: Attempt,
    mut answers: Answers,
) -> Tried
    requires checked { IsChecked deployment.now.codes }
    requires trying { IsTrying (kept_program deployment.now.codes) ticket attempt }
    ensures { WasTried (kept_program deployment.now.codes) result }
{
    'asking: loop {
        match gate.run(worker, &ticket, &mut attempt, deployment) {
            Ok(Progress::Done) => return Tried::Ended(ticket, attempt),
            Ok(Progress::Need(key)) => {
                recall.note(&ticket, &key);
                let Some(seen) = take_answer(&mut answers, &key) else {
                    return Tried::Asks(ticket, attempt, key, answers);
                };
                let Ok(()) = attempt.learn(key, seen) else {
                    return Tried::NoMemory(ticket);
                };
            }
            Err(NoMemory) => return Tried::NoMemory(ticket),
        }
    }
}

/// Tries what is in hand.
#[tactic(auto, using(crate::proofs::HandLemmas::begun))]
pub(crate) fn try_held<G: Gate>(
    alloc: Global,
    gate: &G,
    worker: u64,
    deployment: &Deployment,
    recall: &mut Recall,
    held: Held,
) -> Tried
    requires checked { IsChecked deployment.now.codes }
    requires held { IsInHand (kept_program deployment.now.codes) held }
    ensures { WasTried (kept_program deployment.now.codes) result }
{
    match held {
        Held::Nothing => Tried::Nothing,
        Held::Fresh(ticket, answers) => match Attempt::new(alloc, &ticket) {
            Ok(attempt) => {
                recall.begin(&ticket);
                run_by(gate, worker, deployment, recall, ticket, attempt, answers)
            }
            Err(NoMemory) => Tried::NoMemory(ticket),
        },
        Held::Begun(ticket, attempt, answers) => {
            run_by(gate, worker, deployment, recall, ticket, attempt, answers)
        }
    }
}
