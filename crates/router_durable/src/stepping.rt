//! Steps of the router that are kept in a journal, and what they leave on the disk.
ghost use Rattle.std.specs.Prelude.{◌≡◌, ◌≤◌, false, length, IsErr, IsTrue, None, OnOk};
ghost use Rattle.router_core.specs.States.{HasRoomFor, IsOwn};
ghost use Rattle.router_plans.specs.Plans.{IsPlanOf};
ghost use Rattle.trace_history.specs.Views.{HasRoomForLines};

use crate::dropping::drop_history;
use crate::{BATCH_LIMIT, StepFault, Stop};
use commit_journal::{Journal, SideFull};
use initial_select::Selectors;
use rollback_calls::Delivered;
use router_core::{Plan, State};
use slee_descriptor::Deployment;
use slee_disk::{Disk, Failed};
use slee_value::{ActivityId, NoMemory};
use std::alloc::Global;
use std::marker::Model;
use std::snapshot::Snapshot;
use trace_history::{Choice, History};

/// A state, its history since the opening, and the journal of it.
#[derive(Drop)]
pub struct Core<'d, D: Disk> {
    pub(crate) alloc: Global,
    pub(crate) journal: Journal<D>,
    pub(crate) deployment: &'d Deployment,
    /// The document of the deployment.
    pub(crate) bytes: &'d [u8],
    pub(crate) state: State,
    pub(crate) history: History,
    pub(crate) acked: u64,
    pub(crate) stop: Option<Stop>,
    // The disk before the opening, the journal as it was read, and the one behind the opening with the state on which its records
    // follow. A compaction is an opening of its own.
    pub(crate) opened: Snapshot<D>,
    pub(crate) read: Snapshot<Journal<D>>,
    pub(crate) begun: Snapshot<Journal<D>>,
    pub(crate) start: Snapshot<State>,
    /// Whether the disk failed in a compaction.
    pub(crate) torn: bool,
}

impl<'d, D: Disk> Model for Core<'d, D> {
    ghost use Rattle.std.specs.Coded.{codes};
    ghost use Rattle.script_types.specs.ProgramCode.{term_code, steps_code};
    ghost use Rattle.router_durable.specs.Facts.{initial_of, origin_of};
    ghost use Rattle.router_durable.specs.Core.{Held, IsSoundWith};

    ghost Value = { Held D };

    ghost coded = { Prim.hlevel (codes, term_code (Prim.hlevel codes), steps_code (Prim.hlevel (codes, term_code (Prim.hlevel codes)))) };

    ghost view = { λ c. record {
      disk = c.journal.disk;
      origin = origin_of D.disk (initial_of c.deployment.now.parts c.deployment.now.codes) c.bytes.now c.opened.value c.read.value.records c.start.value.state c.begun.value c.torn;
      limit = c.journal.limit;
      history = c.history.entries;
      acked = c.acked;
      stop = c.stop;
    } };

    ghost invariant = { λ c. IsSoundWith c.journal (D.disk c.journal.disk)
        (origin_of D.disk (initial_of c.deployment.now.parts c.deployment.now.codes) c.bytes.now c.opened.value c.read.value.records c.start.value.state c.begun.value c.torn)
        c.history.entries c.acked c.stop c.deployment.now c.state.state };
}

impl<'d, D: Disk> Core<'d, D> {
    ghost use Rattle.slee_disk.specs.Causes.{Rose};
    ghost use Rattle.slee_disk.specs.Disk.{LeavesOnly};
    ghost use Rattle.router_steps.specs.Histories.{is_choice};
    ghost use Rattle.router_steps.specs.Steps.{is_enabled};
    ghost use Rattle.router_core.specs.Choosing.{IsNoInitial};
    ghost use Rattle.router_core.specs.Delivering.{Delivers};
    ghost use Rattle.trace_history.specs.declared.choice.Choice.TheVariants as choices;
    ghost use Rattle.router_durable.specs.Facts.{initial_of, RestartsIn, IsCrashSafe};
    ghost use Rattle.router_durable.specs.Core.{Adds, Flushes, IsHeld, Makes, halted, is_down, is_written, state_held};

    /// Adds the record of a planned step to the batch, and makes the step. Whether its record has room is tested first, and
    /// all memory is taken before anything changes.
    fn add(&mut self, plan: Plan) -> Result<(), StepFault>
        requires live { self.old.stop ≡ None }
        requires made { IsPlanOf (state_held self.old) plan.choice plan }
        ensures { Adds self.old plan.choice result self.new }
    {
        match self.journal.check_room(plan.payload().len()) {
            Ok(()) => {}
            Err(SideFull { length, adding }) => {
                self.stop = Some(Stop::Full { length, adding });
                return Err(StepFault::Full { length, adding });
            }
        }
        let Ok(()) = reserve(&mut self.state, &mut self.history, &plan) else {
            return Err(StepFault::NoMemory);
        };
        let Ok(()) = self.journal.push(plan.payload()) else {
            return Err(StepFault::NoMemory);
        };
        let entry = self.state.apply(plan);
        self.history.push(entry);
        Ok(())
    }

    /// Whether the batch is long enough to be written.
    fn has_long_batch(&self) -> bool
        requires live { self.now.stop ≡ None }
        ensures { result ≡ is_written self.now.origin self.now.history self.now.acked }
    {
        self.journal.batch() >= BATCH_LIMIT
    }

    /// Makes a planned step, first in the journal. Its record waits in the batch, which is written where it is long enough.
    fn make(&mut self, plan: Plan) -> Result<u64, StepFault>
        requires live { self.old.stop ≡ None }
        requires made { IsPlanOf (state_held self.old) plan.choice plan }
        requires safe { IsCrashSafe self.old.origin self.old.history self.old.acked (D.disk self.old.disk) }
        requires whole { self.old.origin.torn ≡ false }
        ensures { Makes (D.disk self.old.disk) (D.disk self.new.disk) self.old plan.choice result self.new }
    {
        match self.add(plan) {
            Ok(()) => {}
            Err(fault) => return Err(fault),
        }
        if !self.has_long_batch() {
            return Ok(self.len());
        }
        match self.flush() {
            Ok(()) => Ok(self.len()),
            Err(Failed) => Err(StepFault::DiskFault),
        }
    }

    /// Makes the step of a choice that is no initial selection. Its answer is the number of the entry.
    pub fn step(&mut self, choice: Choice) -> Result<u64, StepFault>
        requires live { self.old.stop ≡ None }
        requires valid { IsTrue (is_choice choice) }
        requires enabled { IsTrue (is_enabled (state_held self.old) choice) }
        requires other { IsNoInitial choice }
        ensures { Makes (D.disk self.old.disk) (D.disk self.new.disk) self.old choice result self.new }
    {
        let Ok(plan) = self.state.plan(self.alloc, self.deployment, choice) else {
            return Err(StepFault::NoMemory);
        };
        self.make(plan)
    }

    /// Makes the initial selection that is next on an activity.
    pub fn select(&mut self, activity: ActivityId, selectors: &Selectors) -> Result<u64, StepFault>
        requires live { self.old.stop ≡ None }
        requires enabled { IsTrue (is_enabled (state_held self.old) (choices.Initial activity)) }
        ensures { Makes (D.disk self.old.disk) (D.disk self.new.disk) self.old (choices.Initial activity) result self.new }
    {
        let Ok(plan) = self
            .state
            .plan_initial(self.alloc, self.deployment, activity, selectors)
        else {
            return Err(StepFault::NoMemory);
        };
        self.make(plan)
    }

    /// Makes the delivery that is next on an activity, which comes to this: its handler has run already.
    pub fn deliver(&mut self, activity: ActivityId, delivered: Delivered) -> Result<u64, StepFault>
        requires live { self.old.stop ≡ None }
        requires enabled { IsTrue (is_enabled (state_held self.old) (choices.Deliver activity)) }
        requires delivers { Delivers (state_held self.old) activity delivered }
        ensures { Makes (D.disk self.old.disk) (D.disk self.new.disk) self.old (choices.Deliver activity) result self.new }
    {
        let Ok(plan) = self
            .state
            .plan_delivered(self.alloc, self.deployment, activity, delivered)
        else {
            return Err(StepFault::NoMemory);
        };
        self.make(plan)
    }

    /// Writes what isn't acknowledged yet. Where nothing is left to write, nothing is done.
    pub fn flush(&mut self) -> Result<(), Failed>
        requires live { is_down self.old.stop ≡ false }
        ensures flush { Flushes self.old result self.new }
        ensures failed { IsErr result → Rose (D.disk self.old.disk).faults (D.disk self.new.disk).faults }
        ensures idle { self.old.acked ≡ length self.old.history → self.new ≡ self.old }

        // A crash at any moment of the call leaves what was acknowledged before it.
        ensures any_moment { IsTrue self.old.origin.told → LeavesOnly (D.disk self.old.disk) (D.disk self.new.disk)
            (RestartsIn self.old.origin self.old.history self.old.acked) }
    {
        match self.journal.flush() {
            Ok(()) => {
                self.acked = self.history.len();
                Ok(())
            }
            Err(Failed) => {
                self.stop = Some(Stop::DiskFault);
                Err(Failed)
            }
        }
    }

    /// Stops it for want of memory, if it isn't stopped yet. What is acknowledged and what waits in the batch stay, and what
    /// waits may still be written.
    pub fn halt(&mut self)
        ensures { self.new ≡ record self.old { stop = halted self.old.stop } }
    {
        if self.stop.is_none() {
            self.stop = Some(Stop::NoMemory);
        }
    }

    /// The state, which is that after the history.
    pub fn state(&self) -> &State
        ensures { result.now.state ≡ state_held self.now }
    {
        &self.state
    }

    /// The deployment that it serves.
    pub fn deployment(&self) -> &'d Deployment
        ensures start { initial_of result.now.parts result.now.codes ≡ self.now.origin.initial }
        ensures own { IsOwn result.now (state_held self.now) }
    {
        self.deployment
    }

    /// The entries since the opening.
    pub fn history(&self) -> &History
        ensures entries { result.now.entries ≡ self.now.history }
        ensures safe { IsCrashSafe self.now.origin self.now.history self.now.acked (D.disk self.now.disk) }
    {
        &self.history
    }

    /// What is known of it, whatever was done with it.
    pub fn held(&self)
        ensures { IsHeld (D.disk self.now.disk) self.now }
    {
        let _history = &self.history;
    }

    /// How many entries there are since the opening.
    pub fn len(&self) -> u64
        ensures { result ≡ length self.now.history }
    {
        self.history.len()
    }

    /// How many of them are acknowledged.
    pub fn acked(&self) -> u64
        ensures acked { result ≡ self.now.acked }
        ensures within { result ≤ length self.now.history }
    {
        self.acked
    }

    /// Why it is stopped, where it is.
    pub fn stop(&self) -> Option<Stop>
        ensures { result ≡ self.now.stop }
    {
        self.stop
    }

    /// The disk, whatever has come of the router.
    pub fn into_disk(self) -> D
        ensures disk { result ≡ self.entry.disk }
        ensures held { IsHeld (D.disk result) self.entry }
    {
        let Core {
            alloc: _,
            journal,
            deployment: _,
            bytes: _,
            state: _,
            history,
            acked: _,
            stop: _,
            opened: _,
            read: _,
            begun: _,
            start: _,
            torn: _,
        } = self;
        drop_history(history);
        journal.into_disk()
    }
}

/// Makes the memory for a plan, in the state and in the history.
fn reserve(state: &mut State, history: &mut History, plan: &Plan) -> Result<(), NoMemory>
    ensures state { state.new.state ≡ state.old.state }
    ensures history { history.new.entries ≡ history.old.entries }
    ensures room { OnOk result (HasRoomFor plan.now state.new) }
    ensures lines { OnOk result (HasRoomForLines plan.now.lines history.new) }
{
    state.reserve(plan)?;
    history.reserve(plan.lines())
}
