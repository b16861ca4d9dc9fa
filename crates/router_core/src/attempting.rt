//! Deliveries: the handler of the head event and its callbacks, run over what is seen in the state.
ghost use Rattle.std.specs.Prelude.{◌≡◌, ℕ, List, None, Some, true, IfNone, IfOk, IfSome, IsSome, IsTrue, option_map};
ghost use Rattle.script_types.specs.ProgramOf.{IsChecked, kept_program};
ghost use Rattle.deploy_model.specs.Deployed.{handles};
ghost use Rattle.deploy_model.specs.Resolving.{deployed_of};
ghost use Rattle.rollback_calls.specs.Deliveries.{Handles};
ghost use Rattle.trace_history.specs.declared.choice.Choice.TheVariants as choices;
ghost use Rattle.router_state.specs.Next.{receives_at};
ghost use Rattle.router_state.specs.Queues.{head_event};
ghost use Rattle.router_steps.specs.Steps.{is_enabled};
ghost use Rattle.router_basis.specs.Deploying.{IsDeployed};
ghost use Rattle.router_core.specs.Delivering.{Delivers, IsReceipt, IsTicket, received_at};

use crate::{Sight, State};
use rollback_calls::Delivered;
use router_choice::receiver;
use router_state::Event;
use router_subjects::Receipt;
use slee_descriptor::Deployment;
use slee_value::{ActivityId, EntityId, NoMemory};
use std::alloc::Global;
use tx_attempt::{Attempt, Ticket};

/// The number of a ticket that nobody claims.
const UNCLAIMED: u64 = 0;

/// A checked deployment has the handler of each event that a block of it handles.
fn handlers_are_there(deployment: &Deployment)
    requires { IsChecked deployment.now.codes }
    ensures { (number : ℕ) (event : List ℕ) → handles (deployed_of deployment.now.parts) number event ≡ true → Handles (kept_program deployment.now.codes) number event }
{
    let _codes = deployment.codes();
}

fn copied(alloc: Global, event: &Event) -> Result<Event, NoMemory>
    ensures { IfOk result (λ copy. copy ≡ event.now) }
{
    Ok(Event {
        id: event.id,
        name: event.name.copy(alloc)?,
        fields: event.fields.copy(alloc)?,
        target: event.target,
    })
}

impl State {
    /// The head event of an activity on which one waits.
    #[tactic(auto, using(crate::proofs::NextLemmas::head_waits))]
    pub(crate) fn head(&self, activity: ActivityId) -> &Event
        requires { IsSome (head_event self.now.state.events activity.0) }
        ensures { head_event self.now.state.events activity.0 ≡ Some result.now }
    {
        match self.front(activity) {
            Some(event) => event,
            None => unreachable!(),
        }
    }

    /// The head event of the activity with the entity that receives it, where one does.
    #[tactic(auto, using(crate::proofs::TicketLemmas::nothing_waits, crate::proofs::TicketLemmas::nobody_receives, crate::proofs::TicketLemmas::first_receives))]
    fn received(&self, deployment: &Deployment, activity: ActivityId) -> Option<(&Event, EntityId)>
        requires { deployed_of deployment.now.parts ≡ self.now.state.deployment }
        ensures { option_map (λ x. (x.0.now, x.1)) result ≡ received_at self.now.state activity.0 }
    {
        let event = self.front(activity)?;
        let entity = receiver(&self.stores, deployment, activity, event)?;
        Some((event, entity))
    }

    /// Which event reaches which entity by the delivery that is next on the activity.
    #[tactic(auto, using(crate::proofs::TicketLemmas::receives_next, crate::proofs::TicketLemmas::receipt_is))]
    pub(crate) fn receipt(&self, deployment: &Deployment, activity: ActivityId) -> Receipt
        requires deployed { deployed_of deployment.now.parts ≡ self.now.state.deployment }
        requires enabled { IsTrue (is_enabled self.now.state (choices.Deliver activity)) }
        ensures activity { result.activity ≡ activity }
        ensures receipt { IsReceipt self.now.state result }
    {
        let Some((event, entity)) = self.received(deployment, activity) else {
            unreachable!();
        };
        Receipt {
            activity,
            event: event.id,
            entity,
        }
    }

    /// The ticket of this number for the delivery that comes first on the activity. None stands where no entity receives an event
    /// there. A state that is used up has tickets too.
    #[tactic(auto, using(crate::proofs::TicketLemmas::receives_none, crate::proofs::TicketLemmas::block_there, crate::proofs::TicketLemmas::ticket_is))]
    pub fn ticket(
        &self,
        alloc: Global,
        deployment: &Deployment,
        number: u64,
        activity: ActivityId,
    ) -> Result<Option<Ticket>, NoMemory>
        requires { IsDeployed deployment.now self.now.state }
        ensures numbers { IfOk result (λ found. IfSome found (λ t. (t.number ≡ number) × (t.activity ≡ activity))) }
        ensures ticket { IfOk result (λ found. IfSome found (λ t. IsTicket self.now.state t)) }

        // What an attempt at it asks for.
        ensures handled { IfOk result (λ found. IfSome found (λ t. Handles (kept_program deployment.now.codes) t.block t.event.name)) }
        ensures none { IfOk result (λ found. IfNone found (receives_at self.now.state activity.0 ≡ None)) }
    {
        handlers_are_there(deployment);
        self.stores.ordered();
        let Some((event, entity)) = self.received(deployment, activity) else {
            return Ok(None);
        };
        let Some(block) = self.block(entity) else {
            unreachable!();
        };
        Ok(Some(Ticket {
            number,
            activity,
            event: copied(alloc, event)?,
            entity,
            block,
        }))
    }

    /// What the delivery of the ticket, which is next on its activity, comes to here.
    #[tactic(auto, using(crate::proofs::AttemptLemmas::new_asked, crate::proofs::AttemptLemmas::done_there))]
    fn delivered(
        &self,
        alloc: Global,
        deployment: &Deployment,
        ticket: &Ticket,
    ) -> Result<Delivered, NoMemory>
        requires deployed { IsDeployed deployment.now self.now.state }
        requires enabled { IsTrue (is_enabled self.now.state (choices.Deliver ticket.now.activity)) }
        requires ticket { IsTicket self.now.state ticket.now }
        ensures { IfOk result (λ delivered. Delivers self.now.state ticket.now.activity delivered) }
    {
        handlers_are_there(deployment);
        let mut attempt = Attempt::new(alloc, ticket)?;
        attempt.run_over(deployment, &Sight::new(self, deployment))?;
        attempt.delivered()
    }

    /// What the delivery that is next on the activity comes to.
    #[tactic(auto, using(crate::proofs::TicketLemmas::delivers_next))]
    pub(crate) fn next_delivered(
        &self,
        alloc: Global,
        deployment: &Deployment,
        activity: ActivityId,
    ) -> Result<Delivered, NoMemory>
        requires deployed { IsDeployed deployment.now self.now.state }
        requires enabled { IsTrue (is_enabled self.now.state (choices.Deliver activity)) }
        ensures { IfOk result (λ delivered. Delivers self.now.state activity delivered) }
    {
        let Some(ticket) = self.ticket(alloc, deployment, UNCLAIMED, activity)? else {
            unreachable!();
        };
        self.delivered(alloc, deployment, &ticket)
    }
}
