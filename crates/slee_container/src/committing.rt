//! Deliveries that were prepared: they are committed, or made anew.
ghost use Rattle.std.specs.Prelude.{◌≡◌, None, false, true, IsSome};
ghost use Rattle.handler_run.specs.Views.{conflict};
ghost use Rattle.trace_history.specs.declared.choice.Choice.TheVariants as choices;
ghost use Rattle.router_core.specs.Delivering.{Delivers};
ghost use Rattle.router_state.specs.Look.{look};
ghost use Rattle.router_steps.specs.Steps.{is_delivery, is_next_by};
ghost use Rattle.tx_attempt.specs.Attempts.{IsDone};
ghost use Rattle.slee_container.specs.Claims.{IsAttemptOf, IsClaim};
ghost use Rattle.slee_container.specs.Container.{state_of};
ghost use Rattle.slee_container.specs.Steps.{ChecksOut, Commits, MakesWith, Redoes, check_fault_of, claims_after, commit_fault_of, is_spent};

use crate::stepping::is_made;
use crate::{CommitFault, Container, Redone};
use rollback_calls::Delivered;
use router_core::Sight;
use router_durable::StepFault;
use slee_disk::Disk;
use slee_value::{ActivityId, NoMemory};
use trace_history::Choice;
use tx_attempt::{Attempt, CheckStop, Ticket};

/// Why a delivery isn't committed, where its step isn't made.
fn commit_fault_of(fault: StepFault) -> CommitFault
    ensures { result ≡ commit_fault_of fault }
{
    match fault {
        StepFault::DiskFault => CommitFault::DiskFault,
        StepFault::Full { length, adding } => CommitFault::Full { length, adding },
        StepFault::Spent => CommitFault::Spent,
        StepFault::NoMemory => CommitFault::NoMemory,
    }
}

/// Why a delivery isn't committed, where something else is seen now.
fn check_fault_of(stop: CheckStop) -> CommitFault
    ensures { result ≡ check_fault_of stop }
{
    match stop {
        CheckStop::Conflict { key, saw, found } => CommitFault::Conflict { key, saw, found },
        CheckStop::NoMemory => CommitFault::NoMemory,
    }
}

impl<'d, D: Disk> Container<'d, D> {
    /// What the attempt at a claim came to, if all that it has seen is seen so now.
    #[tactic(auto, using(crate::proofs::Committed::checks_out))]
    fn checked(&self, ticket: &Ticket, attempt: &Attempt) -> Result<Delivered, CommitFault>
        requires claim { IsClaim ticket.now self.now.claims }
        requires attempt { IsAttemptOf ticket.now attempt.now }
        requires done { IsDone self.now.setup.origin.initial.program attempt.now }
        ensures { ChecksOut self.now ticket.now attempt.now result }
    {
        let sight = Sight::new(self.core.state(), self.core.deployment());
        match attempt.check(&sight) {
            Ok(()) => {}
            Err(stop) => return Err(check_fault_of(stop)),
        }
        match attempt.delivered() {
            Ok(delivered) => Ok(delivered),
            Err(NoMemory) => Err(CommitFault::NoMemory),
        }
    }

    /// Lets the claim of an activity go, where its step was made.
    fn settle(&mut self, activity: ActivityId, made: Result<u64, StepFault>)
        ensures { self.new ≡ record self.old { claims = claims_after self.old.claims activity.0 made } }
    {
        if is_made(made) {
            self.let_go(activity);
        }
    }

    /// Makes the delivery that is next on an activity, which comes to this.
    fn deliver(&mut self, activity: ActivityId, delivered: Delivered) -> Result<u64, StepFault>
        requires live { self.old.stop ≡ None }
        requires fresh { is_spent self.old ≡ false }
        requires next { is_next_by is_delivery (state_of self.old) activity.0 ≡ true }
        requires delivers { Delivers (state_of self.old) activity delivered }
        ensures { MakesWith (D.disk self.old.disk) (D.disk self.new.disk) self.old (choices.Deliver activity) result (claims_after self.old.claims activity.0 result) self.new }
    {
        let made = self.core.deliver(activity, delivered);
        self.settle(activity, made);
        made
    }

    /// Makes the delivery that is next on an activity; its handler is run here.
    fn deliver_here(&mut self, activity: ActivityId) -> Result<u64, StepFault>
        requires live { self.old.stop ≡ None }
        requires fresh { is_spent self.old ≡ false }
        requires next { is_next_by is_delivery (state_of self.old) activity.0 ≡ true }
        ensures { MakesWith (D.disk self.old.disk) (D.disk self.new.disk) self.old (choices.Deliver activity) result (claims_after self.old.claims activity.0 result) self.new }
    {
        let made = self.core.step(Choice::Deliver(activity));
        self.settle(activity, made);
        made
    }

    /// Makes the delivery of a claimed ticket as an attempt came to it, if all that the attempt has seen is seen so now. Its
    /// answer is the number of the entry.
    #[tactic(auto, using(crate::proofs::Committed::commits_ok, crate::proofs::Committed::commits_err, crate::proofs::Committed::commits_refused))]
    pub fn commit(&mut self, ticket: &Ticket, attempt: &Attempt) -> Result<u64, CommitFault>
        requires live { self.old.stop ≡ None }
        requires claim { IsClaim ticket.now self.old.claims }
        requires attempt { IsAttemptOf ticket.now attempt.now }
        requires done { IsDone self.old.setup.origin.initial.program attempt.now }
        ensures { Commits (D.disk self.old.disk) (D.disk self.new.disk) self.old ticket.now attempt.now result self.new }
    {
        if self.is_spent() {
            return Err(CommitFault::Spent);
        }
        let delivered = self.checked(ticket, attempt)?;
        match self.deliver(ticket.activity, delivered) {
            Ok(number) => Ok(number),
            Err(fault) => Err(commit_fault_of(fault)),
        }
    }

    /// Makes the delivery that is next on the activity of a claimed ticket, whose attempt saw something else than is seen now,
    /// and lets the claim go. Where the step is refused before it is made, the claim stays.
    #[tactic(auto, using(crate::proofs::Committed::redoes_ok, crate::proofs::Committed::redoes_err, crate::proofs::Made::spent_makes))]
    pub fn redo(&mut self, ticket: &Ticket, attempt: &Attempt) -> Result<Redone, StepFault>
        requires live { self.old.stop ≡ None }
        requires claim { IsClaim ticket.now self.old.claims }
        requires attempt { IsAttemptOf ticket.now attempt.now }
        requires done { IsDone self.old.setup.origin.initial.program attempt.now }
        requires conflict { IsSome (conflict (look (state_of self.old)) attempt.now.known) }
        ensures { Redoes (D.disk self.old.disk) (D.disk self.new.disk) self.old ticket.now.activity result self.new }
    {
        let activity = ticket.activity;
        if !self.is_delivery_next(activity) {
            self.let_go(activity);
            return Ok(Redone::Released);
        }
        if self.is_spent() {
            return Err(StepFault::Spent);
        }
        let number = self.deliver_here(activity)?;
        Ok(Redone::Entry(number))
    }
}
