//! The callbacks of a handler that wasn't fine.
ghost use Rattle.std.specs.Prelude.{◌≡◌, ◌≤◌, [], IfOk, length, option_map};
ghost use Rattle.script_types.specs.ProgramOf.{IsChecked, kept_program};
ghost use Rattle.script_meaning.specs.Answers.{kept};
ghost use Rattle.script_meaning.specs.Running.{effect_limit, key_limit};
ghost use Rattle.script_meaning.specs.Delivery.{fine_effects};
ghost use Rattle.handler_run.specs.Runs.{before_of, meaning_of_run};
ghost use Rattle.rollback_calls.specs.Callbacks.{behind_callback, callback_over, called_back_over, ended_by, exception_over, rolled_back_over};
ghost use Rattle.rollback_calls.specs.Deliveries.{delivery_of};

use crate::{Delivered, Step};
use handler_run::{Before, Keys, Known, Run, has_script, run_script};
use script_meaning::{Args, Outcome, Part, Which};
use script_types::Codes;
use slee_effect::Effects;
use slee_value::{EntityId, NoMemory};
use std::alloc::Global;

/// What the callbacks of a handler stand on.
#[derive(Drop)]
pub(crate) struct Callbacks<'a> {
    pub(crate) alloc: Global,
    pub(crate) codes: &'a Codes,
    pub(crate) block: u32,
    pub(crate) entity: EntityId,
    pub(crate) arguments: &'a Args,
    pub(crate) known: &'a Known,
}

/// A transaction that has done nothing yet.
pub(crate) fn nothing_before(alloc: Global) -> Before
    ensures { before_of result ≡ record { effects = []; keys = [] } }
{
    Before {
        effects: Effects::new(alloc),
        keys: Keys::new(alloc),
    }
}

/// The effects that stand after a run that ended so.
fn standing_effects(alloc: Global, outcome: Outcome, effects: Effects) -> Effects
    ensures { result ≡ fine_effects outcome effects }
{
    match outcome {
        Outcome::Fine => effects,
        Outcome::Asked | Outcome::Broken(_) => Effects::new(alloc),
    }
}

/// The end of a delivery behind its rolled-back callback.
fn end(
    alloc: Global,
    outcome: Outcome,
    exception: Option<Outcome>,
    rolled_back: Option<Run>,
) -> Step
    ensures { delivery_of result ≡ behind_callback (option_map meaning_of_run rolled_back) (ended_by outcome exception) }
{
    match rolled_back {
        None => Step::Done(Delivered {
            outcome,
            exception,
            rolled_back: None,
            effects: Effects::new(alloc),
        }),
        Some(Run::Need(key)) => Step::Need(key),
        Some(
            Run::Done {
                outcome: ended,
                failure: _,
                effects,
                keys: _,
            },
        ) => Step::Done(Delivered {
            outcome,
            exception,
            rolled_back: Some(ended),
            effects: standing_effects(alloc, ended, effects),
        }),
    }
}

impl Callbacks<'_> {
    /// Runs a callback, where it is there.
    fn run(&self, part: Part, before: &Before) -> Result<Option<Run>, NoMemory>
        requires checked { IsChecked self.now.codes.now }
        requires effects { length before.now.effects ≤ effect_limit }
        requires keys { length before.now.keys ≤ key_limit }
        ensures { IfOk result (λ run. option_map meaning_of_run run ≡ callback_over (kept self.now.known.now) (kept_program self.now.codes.now) self.now.block self.now.entity self.now.arguments.now part (before_of before.now)) }
    {
        let which = Which {
            block: self.block,
            part,
        };
        if !has_script(self.codes, which) {
            return Ok(None);
        }
        let run = run_script(
            self.alloc,
            self.codes,
            which,
            self.entity,
            self.arguments,
            before,
            self.known,
        )?;
        Ok(Some(run))
    }

    /// Runs the exception callback where the handler failed.
    fn run_exception(&self, outcome: Outcome, before: &Before) -> Result<Option<Run>, NoMemory>
        requires checked { IsChecked self.now.codes.now }
        requires effects { length before.now.effects ≤ effect_limit }
        requires keys { length before.now.keys ≤ key_limit }
        ensures { IfOk result (λ run. option_map meaning_of_run run ≡ exception_over (kept self.now.known.now) (kept_program self.now.codes.now) self.now.block self.now.entity self.now.arguments.now outcome (before_of before.now)) }
    {
        match outcome {
            Outcome::Broken(_) => self.run(Part::Exception, before),
            Outcome::Asked | Outcome::Fine => Ok(None),
        }
    }

    /// Runs the rolled-back callback, which sees nothing of what went before, and ends the delivery.
    fn roll_back(&self, outcome: Outcome, exception: Option<Outcome>) -> Result<Step, NoMemory>
        requires { IsChecked self.now.codes.now }
        ensures { IfOk result (λ step. delivery_of step ≡ rolled_back_over (kept self.now.known.now) (kept_program self.now.codes.now) self.now.block self.now.entity self.now.arguments.now outcome exception) }
    {
        let rolled_back = self.run(Part::RolledBack, &nothing_before(self.alloc))?;
        Ok(end(self.alloc, outcome, exception, rolled_back))
    }

    /// Runs the callbacks of a handler that ended so, with these effects and keys.
    pub(crate) fn call_back(&self, outcome: Outcome, before: &Before) -> Result<Step, NoMemory>
        requires checked { IsChecked self.now.codes.now }
        requires effects { length before.now.effects ≤ effect_limit }
        requires keys { length before.now.keys ≤ key_limit }
        ensures { IfOk result (λ step. delivery_of step ≡ called_back_over (kept self.now.known.now) (kept_program self.now.codes.now) self.now.block self.now.entity self.now.arguments.now outcome (before_of before.now)) }
    {
        match self.run_exception(outcome, before)? {
            None => self.roll_back(outcome, None),
            Some(Run::Need(key)) => Ok(Step::Need(key)),
            Some(
                Run::Done {
                    outcome: ended,
                    failure: _,
                    effects: _,
                    keys: _,
                },
            ) => self.roll_back(outcome, Some(ended)),
        }
    }
}
