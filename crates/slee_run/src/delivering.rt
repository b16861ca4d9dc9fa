//! Deliveries: each is claimed, tried over what the container shows, and committed.
ghost use Rattle.std.specs.Prelude.{◌≡◌, [], ◌∷◌, None, Some, IfOk, OnOk};
ghost use Rattle.router_state.specs.Look.{look};
ghost use Rattle.router_state.specs.Next.{next};
ghost use Rattle.router_state.specs.declared.kindred.Kindred.TheVariants as kinds;
ghost use Rattle.handler_run.specs.Views.{conflict};
ghost use Rattle.tx_attempt.specs.Attempts.{IsDone, IsNew};
ghost use Rattle.trace_history.specs.declared.choice.Choice.TheVariants as choices;
ghost use Rattle.slee_container.specs.Claims.{IsAttemptOf};
ghost use Rattle.slee_container.specs.Container.{state_of};
ghost use Rattle.slee_container.specs.Steps.{IsTicketFor};
ghost use Rattle.slee_run.specs.Playing.{IsOfStep, IsTriedWhole, Moves, step_fault_of};

use router_durable::StepFault;
use slee_container::{CommitFault, Container};
use slee_disk::Disk;
use slee_value::{ActivityId, NoMemory};
use std::alloc::Global;
use tx_attempt::{Attempt, Progress, Ticket};

/// The delivery of a ticket, tried to its end over what the container shows.
fn attempt_at<'d, D: Disk>(
    alloc: Global,
    container: &Container<'d, D>,
    ticket: &Ticket,
) -> Result<Attempt, NoMemory>
    requires ticket { IsTicketFor container.now ticket.now.activity ticket.now }
    requires next { next (state_of container.now) ticket.now.activity.0 ≡ Some kinds.Deliver }
    ensures of { IfOk result (λ attempt. IsAttemptOf ticket.now attempt) }
    ensures done { IfOk result (λ attempt. IsDone container.now.setup.origin.initial.program attempt) }
    ensures seen { IfOk result (λ attempt. conflict (look (state_of container.now)) attempt.known ≡ None) }
{
    let mut attempt = Attempt::new(alloc, ticket)?;
    match try_whole(container, ticket, &mut attempt) {
        Ok(()) => Ok(attempt),
        Err(NoMemory) => Err(NoMemory),
    }
}

/// Runs an attempt to its end over what the container shows.
fn try_whole<'d, D: Disk>(
    container: &Container<'d, D>,
    ticket: &Ticket,
    attempt: &mut Attempt,
) -> Result<(), NoMemory>
    requires ticket { IsTicketFor container.now ticket.now.activity ticket.now }
    requires next { next (state_of container.now) ticket.now.activity.0 ≡ Some kinds.Deliver }
    requires new { IsNew ticket.now attempt.old }
    ensures { OnOk result (IsTriedWhole container.now.setup.origin.initial.program (state_of container.now) ticket.now attempt.new) }
{
    let deployment = container.deployment();
    'asking: loop {
        match attempt.run(deployment)? {
            Progress::Done => return Ok(()),
            Progress::Need(key) => {
                let seen = container.look(&key)?;
                attempt.learn(key, seen)?;
            }
        }
    }
}

/// Commits an attempt at a claim; nothing has changed since it was tried.
fn commit<'d, D: Disk>(
    container: &mut Container<'d, D>,
    ticket: &Ticket,
    attempt: &Attempt,
) -> Result<u64, StepFault>
    requires live { container.old.stop ≡ None }
    requires claims { container.old.claims ≡ ticket.now ∷ [] }
    requires attempt { IsAttemptOf ticket.now attempt.now }
    requires done { IsDone container.old.setup.origin.initial.program attempt.now }
    requires seen { conflict (look (state_of container.old)) attempt.now.known ≡ None }
    ensures setup { container.new.setup ≡ container.old.setup }
    ensures moves { Moves container.old (choices.Deliver ticket.now.activity) result container.new }
{
    match container.commit(ticket, attempt) {
        Ok(number) => Ok(number),
        Err(fault) => Err(step_fault_of(fault)),
    }
}

/// The fault of a step whose commit was refused, but not for what is seen.
fn step_fault_of(fault: CommitFault) -> StepFault
    requires { IsOfStep fault }
    ensures { result ≡ step_fault_of fault }
{
    match fault {
        CommitFault::Conflict { .. } => unreachable!(),
        CommitFault::DiskFault => StepFault::DiskFault,
        CommitFault::Full { length, adding } => StepFault::Full { length, adding },
        CommitFault::Spent => StepFault::Spent,
        CommitFault::NoMemory => StepFault::NoMemory,
    }
}

/// Tries the delivery of the only claim, and commits it.
fn deliver_claimed<'d, D: Disk>(
    alloc: Global,
    container: &mut Container<'d, D>,
    ticket: &Ticket,
) -> Result<u64, StepFault>
    requires live { container.old.stop ≡ None }
    requires claims { container.old.claims ≡ ticket.now ∷ [] }
    requires ticket { IsTicketFor container.old ticket.now.activity ticket.now }
    requires next { next (state_of container.old) ticket.now.activity.0 ≡ Some kinds.Deliver }
    ensures setup { container.new.setup ≡ container.old.setup }
    ensures moves { Moves container.old (choices.Deliver ticket.now.activity) result container.new }
{
    match attempt_at(alloc, container, ticket) {
        Ok(attempt) => commit(container, ticket, &attempt),
        Err(NoMemory) => Err(StepFault::NoMemory),
    }
}

/// Makes the delivery that is next on an activity.
pub fn deliver<'d, D: Disk>(
    alloc: Global,
    container: &mut Container<'d, D>,
    activity: ActivityId,
) -> Result<u64, StepFault>
    requires live { container.old.stop ≡ None }
    requires claims { container.old.claims ≡ [] }
    requires next { next (state_of container.old) activity.0 ≡ Some kinds.Deliver }
    ensures setup { container.new.setup ≡ container.old.setup }
    ensures moves { Moves container.old (choices.Deliver activity) result container.new }
{
    match container.prepare(activity) {
        Ok(Some(ticket)) => deliver_claimed(alloc, container, &ticket),
        Ok(None) => unreachable!(),
        Err(NoMemory) => Err(StepFault::NoMemory),
    }
}
