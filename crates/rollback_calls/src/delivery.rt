//! Deliveries over what is known.
ghost use Rattle.std.specs.Prelude.{◌≡◌, ◌≤◌, IfOk, length};
ghost use Rattle.script_types.specs.ProgramOf.{IsChecked, kept_program};
ghost use Rattle.script_meaning.specs.Answers.{kept};
ghost use Rattle.script_meaning.specs.Delivery.{delivered};
ghost use Rattle.script_meaning.specs.Running.{effect_limit, key_limit};
ghost use Rattle.rollback_calls.specs.Callbacks.{behind_handler};
ghost use Rattle.rollback_calls.specs.Deliveries.{Handles, delivery_of};
ghost use Rattle.rollback_calls.specs.Prepared.{CanDeliver, delivery_over};

use crate::callback::{Callbacks, nothing_before};
use crate::handling::handler_of;
use crate::{Delivered, PreparedDelivery, Step};
use handler_run::{Before, Known, Run, run_script};
use router_state::Event;
use script_meaning::{Args, Outcome};
use script_types::Codes;
use slee_descriptor::Deployment;
use slee_value::{ActivityId, EntityId, NoMemory, Payload, Text};
use std::alloc::Global;

impl PreparedDelivery {
    /// What the delivery comes to over what is known, or the first key of which nothing is known.
    pub fn run(&self, alloc: Global, codes: &Codes, known: &Known) -> Result<Step, NoMemory>
        requires checked { IsChecked codes.now }
        requires handled { CanDeliver (kept_program codes.now) self.now }
        ensures { IfOk result (λ step. delivery_of step ≡ delivery_over (kept_program codes.now) self.now (kept known.now)) }
    {
        let which = handler_of(codes, self.block, self.event.as_bytes())?;
        let nothing = nothing_before(alloc);
        match run_script(
            alloc,
            codes,
            which,
            self.entity,
            &self.arguments,
            &nothing,
            known,
        )? {
            Run::Need(key) => Ok(Step::Need(key)),
            Run::Done {
                outcome,
                failure,
                effects,
                keys,
            } => self.finish(
                alloc,
                codes,
                known,
                outcome,
                failure,
                Before { effects, keys },
            ),
        }
    }

    /// Ends a delivery whose handler ended so, behind its callbacks where it wasn't fine.
    fn finish(
        &self,
        alloc: Global,
        codes: &Codes,
        known: &Known,
        outcome: Outcome,
        failure: Text,
        done: Before,
    ) -> Result<Step, NoMemory>
        requires checked { IsChecked codes.now }
        requires effects { length done.effects ≤ effect_limit }
        requires keys { length done.keys ≤ key_limit }
        ensures { IfOk result (λ step. delivery_of step ≡ behind_handler (kept known.now) (kept_program codes.now) self.now.block self.now.entity self.now.arguments.activity (record { outcome = outcome; failure = failure; effects = done.effects; keys = done.keys }) outcome) }
    {
        if let Outcome::Fine = outcome {
            return Ok(Step::Done(Delivered {
                outcome,
                exception: None,
                rolled_back: None,
                effects: done.effects,
            }));
        }
        let arguments = Args {
            activity: self.arguments.activity,
            fields: Payload::new(alloc),
            failure,
        };
        let callbacks = Callbacks {
            alloc,
            codes,
            block: self.block,
            entity: self.entity,
            arguments: &arguments,
            known,
        };
        callbacks.call_back(outcome, &done)
    }
}

/// What the delivery of an event on an activity to an entity comes to over what is known: its handler, and where that isn't fine its
/// callbacks; or the first key of which nothing is known.
pub fn deliver_outcome(
    alloc: Global,
    deployment: &Deployment,
    block: u32,
    entity: EntityId,
    activity: ActivityId,
    event: &Event,
    known: &Known,
) -> Result<Step, NoMemory>
    requires checked { IsChecked deployment.now.codes }
    requires handled { Handles (kept_program deployment.now.codes) block event.now.name }
    ensures { IfOk result (λ step. delivery_of step ≡ delivered (kept known.now) (kept_program deployment.now.codes) block entity activity event.now.name event.now.fields) }
{
    let prepared = PreparedDelivery::new(alloc, block, entity, activity, event)?;
    prepared.run(alloc, deployment.codes(), known)
}
