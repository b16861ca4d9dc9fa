//! Events that are suspended.
ghost use Rattle.std.specs.Prelude.{◌<◌, ◌^◌, ℕ, List};
ghost use Rattle.router_laws_histories.specs.Suspended.{AreHoldsTold, IsLeftAlone};
ghost use Rattle.router_state.specs.State.{State};
ghost use Rattle.router_state.specs.Queues.{is_suspended};
ghost use Rattle.router_state.specs.Well.{IsSound};
ghost use Rattle.router_steps.specs.Histories.{Legal};
ghost use Rattle.trace_history.specs.declared.entry.Entry.{Entry};

/// From a line that says that an activity's event is suspended until one that says that it is resumed, no heading names the
/// activity: nothing is selected, delivered or finished there.
#[tactic(auto, using(crate::proofs::Waiting::suspended_left))]
pub fn suspended_events_are_left_alone()
    ensures { (s : State) (h : List Entry) → IsSound s → Legal s h → AreHoldsTold s h → (a : ℕ) → a < 2 ^ 64 → IsLeftAlone a (is_suspended s.suspensions a) h }
{}
