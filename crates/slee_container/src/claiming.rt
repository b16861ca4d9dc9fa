//! Claims on deliveries that are being prepared.
ghost use Rattle.std.specs.Prelude.{◌≡◌, ◌∷◌, ◌++◌, [], false, true, IfOk, IsTrue, OnErr, OnOk};
ghost use Rattle.router_core.specs.Delivering.{IsTicket};
ghost use Rattle.router_state.specs.Look.{look};
ghost use Rattle.router_steps.specs.Steps.{is_delivery, is_next_by};
ghost use Rattle.slee_container.specs.Claims.{IsClaim, without_claim};
ghost use Rattle.slee_container.specs.Container.{state_of};
ghost use Rattle.slee_container.specs.Steps.{IsTicketFor, Prepares, is_free};

use crate::Container;
use crate::claims::{copied_ticket, drop_activity, drop_claim, is_among, is_claimed};
use router_state::Kindred;
use script_meaning::{Key, Seen};
use slee_disk::Disk;
use slee_value::{ActivityId, NoMemory};
use tx_attempt::Ticket;

impl<'d, D: Disk> Container<'d, D> {
    /// Whether a delivery is next on the activity.
    #[tactic(auto, using(crate::proofs::Tickets::delivery_is_next, crate::proofs::Tickets::no_delivery))]
    pub(crate) fn is_delivery_next(&self, activity: ActivityId) -> bool
        ensures { result ≡ is_next_by is_delivery (state_of self.now) activity.0 }
    {
        match self.core.state().next(self.core.deployment(), activity) {
            Some(Kindred::Deliver) => true,
            Some(Kindred::Initial) | Some(Kindred::Finish) | None => false,
        }
    }

    /// Whether a delivery is next on the activity, and nobody claims it.
    fn is_free(&self, activity: ActivityId) -> bool
        ensures { result ≡ is_free self.now activity.0 }
    {
        self.is_delivery_next(activity) && !is_claimed(&self.claims, activity)
    }

    /// The ticket of the delivery that is next on an activity.
    #[tactic(auto, using(crate::proofs::Tickets::delivery_there, crate::proofs::Tickets::free_next, crate::proofs::Tickets::ticket_for))]
    fn ticket_on(&self, activity: ActivityId) -> Result<Ticket, NoMemory>
        requires { is_free self.now activity.0 ≡ true }
        ensures { IfOk result (λ ticket. IsTicketFor self.now activity ticket) }
    {
        let number = self.core.len();
        let deployment = self.core.deployment();
        let found = self
            .core
            .state()
            .ticket(self.alloc, deployment, number, activity)?;
        let Some(ticket) = found else {
            unreachable!();
        };
        Ok(ticket)
    }

    /// Keeps a claim on the delivery that is next.
    #[tactic(auto, using(crate::proofs::Tickets::free_unclaimed, crate::proofs::Lines::activities_last))]
    fn claim(&mut self, claim: Ticket) -> Result<(), NoMemory>
        requires free { is_free self.old claim.activity.0 ≡ true }
        requires ticket { IsTicket (state_of self.old) claim }
        ensures ok { OnOk result (self.new ≡ record self.old { claims = self.old.claims ++ claim ∷ [] }) }
        ensures err { OnErr result (self.new ≡ self.old) }
    {
        self.core.state().ordered();
        self.claims.reserve(1)?;
        self.claimed.reserve(1)?;
        self.claimed.push_reserved(claim.activity);
        self.claims.push_reserved(claim);
        Ok(())
    }

    /// Claims the delivery that is next on an activity; none where the next choice is another, or it is claimed.
    #[tactic(auto, using(crate::proofs::Tickets::prepares_some))]
    pub fn prepare(&mut self, activity: ActivityId) -> Result<Option<Ticket>, NoMemory>
        ensures { Prepares self.old activity result self.new }
    {
        if !self.is_free(activity) {
            return Ok(None);
        }
        let ticket = self.ticket_on(activity)?;
        let claim = copied_ticket(self.alloc, &ticket)?;
        self.claim(claim)?;
        Ok(Some(ticket))
    }

    /// Whether the ticket is the claim of its activity.
    #[tactic(auto, using(crate::proofs::SameLemmas::among_is, crate::proofs::SameLemmas::among_isnt))]
    pub fn claimed(&self, ticket: &Ticket) -> bool
        ensures yes { IsTrue result → IsClaim ticket.now self.now.claims }
        ensures no { result ≡ false → IsClaim ticket.now self.now.claims → ⊥ }
    {
        is_among(ticket, &self.claims)
    }

    /// What is seen at a key.
    pub fn look(&self, key: &Key) -> Result<Seen, NoMemory>
        ensures { IfOk result (λ seen. seen ≡ look (state_of self.now) key.now) }
    {
        self.core
            .state()
            .look(self.alloc, self.core.deployment(), key)
    }

    /// Lets the claim of an activity go.
    #[tactic(auto, using(crate::proofs::Lines::steady_without, crate::proofs::Lines::activities_without))]
    pub(crate) fn let_go(&mut self, activity: ActivityId)
        ensures { self.new ≡ record self.old { claims = without_claim self.old.claims activity.0 } }
    {
        drop_claim(&mut self.claims, activity);
        drop_activity(&mut self.claimed, activity);
    }

    /// Lets the claim of a ticket go: its delivery isn't prepared any longer.
    pub fn release(&mut self, ticket: &Ticket)
        requires { IsClaim ticket.now self.old.claims }
        ensures { self.new ≡ record self.old { claims = without_claim self.old.claims ticket.now.activity.0 } }
    {
        self.let_go(ticket.activity);
    }

    /// Lets all claims go.
    #[tactic(auto, using(crate::proofs::Lines::steady_free))]
    pub fn clear_claims(&mut self)
        ensures { self.new ≡ record self.old { claims = [] } }
    {
        self.claims.clear();
        self.claimed.clear();
    }
}
