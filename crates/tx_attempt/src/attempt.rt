//! Attempts.
ghost use Rattle.std.specs.Prelude.{◌≡◌, ◌++◌, ◌∷◌, [], IfOk, IsSome, OnOk, OnErr, Some, None, is_some};
ghost use Rattle.script_types.specs.Program.{Program};
ghost use Rattle.script_types.specs.ProgramOf.{IsChecked, kept_program};
ghost use Rattle.script_meaning.specs.Answers.{kept};
ghost use Rattle.script_meaning.specs.Delivery.{Wants};
ghost use Rattle.handler_run.specs.Views.{Holds};
ghost use Rattle.rollback_calls.specs.Prepared.{CanDeliver, delivery_over};
ghost use Rattle.tx_attempt.specs.Attempts.{HasAsked, IsDone, IsNew, IsSameTask, Progresses};

use crate::Ticket;
use handler_run::{Known, View};
use rollback_calls::{Delivered, PreparedDelivery, Step};
use script_meaning::{Key, Seen};
use slee_descriptor::Deployment;
use slee_value::NoMemory;
use std::alloc::Global;

/// The most that an attempt knows where it asks for more: that its delivery is next, and all but one of the 128 keys that a delivery reads.
pub const KNOWN_LIMIT: usize = 128;

/// How far a run of an attempt came.
#[derive(Debug, Drop)]
pub enum Progress {
    /// The key of which nothing is known.
    Need(Key),
    Done,
}

/// A delivery that is tried over what was seen, and asks for one key after another until it comes to its end.
#[derive(Drop)]
pub struct Attempt {
    pub(crate) alloc: Global,
    pub(crate) delivery: PreparedDelivery,
    pub(crate) known: Known,
    /// Nothing until it is done, and where it has learned something since.
    pub(crate) outcome: Option<Delivered>,
}

impl Attempt {
    /// An attempt at the delivery of this ticket. It knows that this is the one that is next.
    pub fn new(alloc: Global, ticket: &Ticket) -> Result<Self, NoMemory>
        ensures { IfOk result (λ a. IsNew ticket.now a) }
    {
        let delivery = PreparedDelivery::new(
            alloc,
            ticket.block,
            ticket.entity,
            ticket.activity,
            &ticket.event,
        )?;
        let mut known = Known::new(alloc);
        known.push(
            Key::Next(ticket.activity),
            Seen::Next(Some((ticket.event.id, ticket.entity))),
        )?;
        Ok(Attempt {
            alloc,
            delivery,
            known,
            outcome: None,
        })
    }

    /// Runs the delivery over what is known, to its end or the first key of which nothing is known. All runs are of the same deployment, so
    /// that each of them asked for what was learned behind it; then there are at most 128 keys to learn.
    pub fn run(&mut self, deployment: &Deployment) -> Result<Progress, NoMemory>
        requires checked { IsChecked deployment.now.codes }
        requires handled { CanDeliver (kept_program deployment.now.codes) self.old.delivery }
        requires asked { HasAsked (kept_program deployment.now.codes) self.old }
        ensures same { IsSameTask self.old self.new }
        ensures progress { IfOk result (λ progress. Progresses (kept_program deployment.now.codes) self.new progress) }
        ensures err { OnErr result (self.new ≡ self.old) }
    {
        match self
            .delivery
            .run(self.alloc, deployment.codes(), &self.known)?
        {
            Step::Need(key) => Ok(Progress::Need(key)),
            Step::Done(delivered) => {
                self.outcome = Some(delivered);
                Ok(Progress::Done)
            }
        }
    }

    /// Learns what is seen at the key that was needed.
    pub fn learn(&mut self, key: Key, seen: Seen) -> Result<(), NoMemory>
        ensures delivery { self.new.delivery ≡ self.old.delivery }
        ensures known { OnOk result (self.new.known ≡ self.old.known ++ (key, seen) ∷ []) }
        ensures asked { OnOk result ((program : Program) → HasAsked program self.old → delivery_over program self.old.delivery (kept self.old.known) ≡ Wants key → HasAsked program self.new) }
        ensures undone { OnOk result (self.new.outcome ≡ None) }
        ensures err { OnErr result (self.new ≡ self.old) }
    {
        self.known.push(key, seen)?;
        self.outcome = None;
        Ok(())
    }

    /// Runs the delivery to its end over what is seen, and learns each key that it needs there.
    pub fn run_over<V: View>(&mut self, deployment: &Deployment, view: &V) -> Result<(), NoMemory>
        requires checked { IsChecked deployment.now.codes }
        requires handled { CanDeliver (kept_program deployment.now.codes) self.old.delivery }
        requires asked { HasAsked (kept_program deployment.now.codes) self.old }
        ensures delivery { self.new.delivery ≡ self.old.delivery }
        ensures done { OnOk result (IsDone (kept_program deployment.now.codes) self.new) }
        ensures seen { OnOk result (Holds (V.seen_at view.now) self.old.known → Holds (V.seen_at view.now) self.new.known) }
    {
        'asking: loop {
            match self.run(deployment)? {
                Progress::Done => return Ok(()),
                Progress::Need(key) => {
                    let seen = view.look(self.alloc, &key)?;
                    self.learn(key, seen)?;
                }
            }
        }
    }

    /// Whether it is done.
    pub fn is_done(&self) -> bool
        ensures { result ≡ is_some self.now.outcome }
    {
        self.outcome.is_some()
    }

    /// A copy of what the delivery came to.
    pub fn delivered(&self) -> Result<Delivered, NoMemory>
        requires { IsSome self.now.outcome }
        ensures { IfOk result (λ d. self.now.outcome ≡ Some d) }
    {
        match &self.outcome {
            Some(delivered) => delivered.copy(self.alloc),
            None => unreachable!(),
        }
    }
}
