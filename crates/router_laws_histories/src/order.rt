//! The order in which events are finished.
ghost use Rattle.std.specs.Prelude.{◌≡◌, ◌<◌, ◌^◌, ◌++◌, ℕ, List};
ghost use Rattle.router_laws_histories.specs.Words.{AreTold};
ghost use Rattle.router_state.specs.State.{State};
ghost use Rattle.router_state.specs.Well.{IsSound};
ghost use Rattle.router_steps.specs.Histories.{Legal, pending_at, replay};
ghost use Rattle.trace_history.specs.Reading.{finished_in, queued_in};
ghost use Rattle.trace_history.specs.declared.entry.Entry.{Entry};

/// On each activity events are finished in the order in which they were fired (JSR 240, 7.5): by what the lines say, those
/// that waited at first and those that were queued are those that were finished and those that wait at the end.
#[tactic(auto, using(crate::proofs::Bases::finished_in_order))]
pub fn events_are_finished_in_order()
    ensures { (s : State) (h : List Entry) → IsSound s → Legal s h → AreTold s h → (a : ℕ) → a < 2 ^ 64 → pending_at s a ++ queued_in h a ≡ finished_in h a ++ pending_at (replay s h) a }
{}
