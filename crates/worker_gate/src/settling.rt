//! What was tried, under the turn: an attempt is told what it asked for, or committed.
ghost use Rattle.std.specs.Prelude.{◌≡◌, None, IsSome};
ghost use Rattle.handler_run.specs.Views.{conflict};
ghost use Rattle.router_state.specs.Look.{look};
ghost use Rattle.tx_attempt.specs.Attempts.{IsDone, IsNeeded};
ghost use Rattle.slee_container.specs.Claims.{IsAttemptOf, IsClaim};
ghost use Rattle.slee_container.specs.Container.{state_of};
ghost use Rattle.worker_gate.specs.Hands.{IsTrying, WasTried};
ghost use Rattle.worker_gate.specs.Moves.{ComesTo, GoesOn};
ghost use Rattle.worker_gate.specs.declared.hand.Moved.TheVariants as moves;

use crate::hand::{Held, Moved, Tried};
use crate::recall::Answers;
use router_durable::StepFault;
use script_meaning::Key;
use slee_container::{CommitFault, Container};
use slee_disk::Disk;
use slee_value::NoMemory;
use tx_attempt::{Attempt, Ticket};

/// Lets the claim of a ticket go, where it is one, and stops the container for want of memory.
#[tactic(auto, using(crate::proofs::MoveLemmas::same_goes, crate::proofs::MoveLemmas::goes_further))]
fn give_up<'d, D: Disk>(container: &mut Container<'d, D>, ticket: &Ticket) -> Moved
    ensures goes { GoesOn container.old container.new }
    ensures comes { result ≡ moves.NoMemory }
{
    if container.claimed(ticket) {
        container.release(ticket);
    }
    container.halt_memory();
    Moved::NoMemory
}

/// Tells an attempt what is seen at the key that it needs.
#[tactic(auto, using(crate::proofs::HandLemmas::told, crate::proofs::MoveLemmas::stays))]
fn tell<'d, D: Disk>(
    container: &mut Container<'d, D>,
    ticket: Ticket,
    mut attempt: Attempt,
    key: Key,
    answers: Answers,
) -> Moved
    requires trying { IsTrying container.old.setup.origin.initial.program ticket attempt }
    requires needs { IsNeeded container.old.setup.origin.initial.program attempt key }
    ensures goes { GoesOn container.old container.new }
    ensures comes { ComesTo container.new result }
{
    let Ok(seen) = container.look(&key) else {
        return give_up(container, &ticket);
    };
    match attempt.learn(key, seen) {
        Ok(()) => Moved::Goes(Held::Begun(ticket, attempt, answers)),
        Err(NoMemory) => give_up(container, &ticket),
    }
}

/// Leaves with a claim, which is let go.
#[tactic(auto, using(crate::proofs::MoveLemmas::same_goes, crate::proofs::MoveLemmas::over_without))]
fn leave<'d, D: Disk>(container: &mut Container<'d, D>, ticket: &Ticket) -> Moved
    requires claim { IsClaim ticket.now container.old.claims }
    requires over { ComesTo container.old moves.Leaves }
    ensures goes { GoesOn container.old container.new }
    ensures comes { ComesTo container.new result }
{
    container.release(ticket);
    Moved::Leaves
}

/// Makes the delivery of a claim anew, whose attempt saw something else than is seen now.
#[tactic(auto, using(crate::proofs::MoveLemmas::redone_goes, crate::proofs::MoveLemmas::redone_ends, crate::proofs::MoveLemmas::goes_further))]
fn redo<'d, D: Disk>(container: &mut Container<'d, D>, ticket: &Ticket, attempt: &Attempt) -> Moved
    requires live { container.old.stop ≡ None }
    requires claim { IsClaim ticket.now container.old.claims }
    requires attempt { IsAttemptOf ticket.now attempt.now }
    requires done { IsDone container.old.setup.origin.initial.program attempt.now }
    requires conflict { IsSome (conflict (look (state_of container.old)) attempt.now.known) }
    ensures goes { GoesOn container.old container.new }
    ensures comes { ComesTo container.new result }
{
    match container.redo(ticket, attempt) {
        Ok(_) => Moved::Goes(Held::Nothing),
        Err(StepFault::DiskFault) => Moved::Leaves,
        Err(StepFault::Full { .. }) => Moved::Leaves,
        Err(StepFault::Spent) => leave(container, ticket),
        Err(StepFault::NoMemory) => give_up(container, ticket),
    }
}

/// Commits an attempt that came to its end; where it saw something else than is seen now, the delivery is made anew in the same
/// turn.
#[tactic(auto, using(crate::proofs::MoveLemmas::committed_goes, crate::proofs::MoveLemmas::committed_ends, crate::proofs::MoveLemmas::goes_further))]
fn commit<'d, D: Disk>(
    container: &mut Container<'d, D>,
    ticket: &Ticket,
    attempt: &Attempt,
) -> Moved
    requires live { container.old.stop ≡ None }
    requires claim { IsClaim ticket.now container.old.claims }
    requires attempt { IsAttemptOf ticket.now attempt.now }
    requires done { IsDone container.old.setup.origin.initial.program attempt.now }
    ensures goes { GoesOn container.old container.new }
    ensures comes { ComesTo container.new result }
{
    match container.commit(ticket, attempt) {
        Ok(_) => Moved::Goes(Held::Nothing),
        Err(CommitFault::Conflict { .. }) => redo(container, ticket, attempt),
        Err(CommitFault::DiskFault) => Moved::Leaves,
        Err(CommitFault::Full { .. }) => Moved::Leaves,
        Err(CommitFault::Spent) => leave(container, ticket),
        Err(CommitFault::NoMemory) => give_up(container, ticket),
    }
}

/// Goes on with what was tried: nothing is left of it where it was committed, or where its ticket is no claim any longer.
#[tactic(auto, using(crate::proofs::MoveLemmas::stays))]
pub(crate) fn settle<'d, D: Disk>(container: &mut Container<'d, D>, tried: Tried) -> Moved
    requires live { container.old.stop ≡ None }
    requires tried { WasTried container.old.setup.origin.initial.program tried }
    ensures goes { GoesOn container.old container.new }
    ensures comes { ComesTo container.new result }
{
    match tried {
        Tried::Nothing => Moved::Goes(Held::Nothing),
        Tried::NoMemory(ticket) => give_up(container, &ticket),
        Tried::Asks(ticket, attempt, key, answers) => {
            if container.claimed(&ticket) {
                tell(container, ticket, attempt, key, answers)
            } else {
                Moved::Goes(Held::Nothing)
            }
        }
        Tried::Ended(ticket, attempt) => {
            if container.claimed(&ticket) {
                commit(container, &ticket, &attempt)
            } else {
                Moved::Goes(Held::Nothing)
            }
        }
    }
}
