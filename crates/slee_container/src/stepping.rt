//! Steps of a run: the next line, initial selections and finishes, and the writing of what isn't acknowledged.
ghost use Rattle.std.specs.Prelude.{◌^◌, ◌≡◌, ◌<◌, ◌+◌, None, Some, false, length, slice_get, IsErr, IsTrue};
ghost use Rattle.slee_disk.specs.Causes.{Rose};
ghost use Rattle.slee_disk.specs.Disk.{LeavesOnly};
ghost use Rattle.signal_script.specs.Signals.{is_signal};
ghost use Rattle.signal_script.specs.declared.signal.Signal.{Signal as Line};
ghost use Rattle.trace_history.specs.declared.choice.Choice.TheVariants as choices;
ghost use Rattle.router_steps.specs.Steps.{is_next};
ghost use Rattle.router_durable.specs.Core.{is_down};
ghost use Rattle.router_durable.specs.Facts.{IsCrashSafe, RestartsIn};
ghost use Rattle.slee_container.specs.Claims.{is_claimed};
ghost use Rattle.slee_container.specs.Container.{state_of};
ghost use Rattle.slee_container.specs.Steps.{Flushes, Makes, is_made, is_spent};

use crate::Container;
use initial_select::Selectors;
use router_durable::StepFault;
use signal_script::Signal;
use slee_disk::{Disk, Failed};
use slee_value::ActivityId;
use trace_history::Choice;

/// Whether a step was made: it stands in the history.
pub(crate) fn is_made(made: Result<u64, StepFault>) -> bool
    ensures { result ≡ is_made made }
{
    match made {
        Ok(_) | Err(StepFault::DiskFault) => true,
        Err(_) => false,
    }
}

impl<'d, D: Disk> Container<'d, D> {
    /// Whether no step may be made any more.
    pub(crate) fn is_spent(&self) -> bool
        ensures spent { result ≡ is_spent self.now }
        ensures safe { IsCrashSafe self.now.setup.origin self.now.history self.now.acked (D.disk self.now.disk) }
        ensures whole { self.now.stop ≡ None → self.now.setup.origin.torn ≡ false }
    {
        self.core.held();
        self.steps <= self.core.len() || self.core.state().used_up()
    }

    /// The next line.
    #[tactic(auto, using(crate::proofs::Lines::valid_at))]
    fn next_line(&self) -> &'d Signal
        requires { self.now.taken < length self.now.setup.lines }
        ensures line { slice_get self.now.setup.lines self.now.taken ≡ Some result.now }
        ensures valid { IsTrue (is_signal result.now) }
        ensures few { self.now.taken + 1 < 2 ^ 64 }
    {
        &self.lines.as_slice()[self.taken]
    }

    /// Takes the next line, and answers the number of its entry.
    pub fn take_input(&mut self) -> Result<u64, StepFault>
        requires live { self.old.stop ≡ None }
        requires left { self.old.taken < length self.old.setup.lines }
        ensures step { (signal : Line) → slice_get self.old.setup.lines self.old.taken ≡ Some signal
            → Makes (D.disk self.old.disk) (D.disk self.new.disk) self.old (choices.Input signal) result self.new }
        ensures claims { self.new.claims ≡ self.old.claims }
    {
        if self.is_spent() {
            return Err(StepFault::Spent);
        }
        let Ok(signal) = self.next_line().copy(self.alloc) else {
            return Err(StepFault::NoMemory);
        };
        let made = self.core.step(Choice::Input(signal));
        if is_made(made) {
            self.taken += 1;
        }
        made
    }

    /// Makes the initial selection that is next on an activity, and answers the number of its entry.
    #[tactic(auto, using(crate::proofs::Made::made_live, crate::proofs::Made::spent_makes))]
    pub fn initial(&mut self, activity: ActivityId, selectors: &Selectors) -> Result<u64, StepFault>
        requires live { self.old.stop ≡ None }
        requires next { IsTrue (is_next (state_of self.old) (choices.Initial activity)) }
        requires unclaimed { is_claimed self.old.claims activity.0 ≡ false }
        ensures step { Makes (D.disk self.old.disk) (D.disk self.new.disk) self.old (choices.Initial activity) result self.new }
        ensures claims { self.new.claims ≡ self.old.claims }
    {
        if self.is_spent() {
            return Err(StepFault::Spent);
        }
        self.core.select(activity, selectors)
    }

    /// Is done with the head event of an activity, and answers the number of the entry.
    #[tactic(auto, using(crate::proofs::Made::made_live, crate::proofs::Made::spent_makes))]
    pub fn finish(&mut self, activity: ActivityId) -> Result<u64, StepFault>
        requires live { self.old.stop ≡ None }
        requires next { IsTrue (is_next (state_of self.old) (choices.Finish activity)) }
        requires unclaimed { is_claimed self.old.claims activity.0 ≡ false }
        ensures step { Makes (D.disk self.old.disk) (D.disk self.new.disk) self.old (choices.Finish activity) result self.new }
        ensures claims { self.new.claims ≡ self.old.claims }
    {
        if self.is_spent() {
            return Err(StepFault::Spent);
        }
        self.core.step(Choice::Finish(activity))
    }

    /// Writes what isn't acknowledged yet. Where nothing is left to write, nothing is done.
    #[tactic(auto, using(crate::proofs::Made::flushed, crate::proofs::Turned::run_flushed))]
    pub fn flush(&mut self) -> Result<(), Failed>
        requires live { is_down self.old.stop ≡ false }
        ensures flush { Flushes self.old result self.new }
        ensures failed { IsErr result → Rose (D.disk self.old.disk).faults (D.disk self.new.disk).faults }
        ensures idle { self.old.acked ≡ length self.old.history → self.new ≡ self.old }

        // A crash at any moment of the call leaves what was acknowledged before it.
        ensures any_moment { IsTrue self.old.setup.origin.told → LeavesOnly (D.disk self.old.disk) (D.disk self.new.disk)
            (RestartsIn self.old.setup.origin self.old.history self.old.acked) }
    {
        self.core.flush()
    }
}
