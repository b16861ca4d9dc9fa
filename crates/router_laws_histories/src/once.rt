//! How often an event reaches an entity.
ghost use Rattle.std.specs.Prelude.{◌<◌, ◌^◌, ℕ, List};
ghost use Rattle.router_laws_histories.specs.Words.{AreNew, AreTold};
ghost use Rattle.router_state.specs.State.{State};
ghost use Rattle.router_state.specs.Well.{IsSound};
ghost use Rattle.router_steps.specs.Histories.{Legal, marked_at};
ghost use Rattle.trace_history.specs.Reading.{reached_in};
ghost use Rattle.trace_history.specs.declared.entry.Entry.{Entry};

/// No event reaches an entity twice, nor one that had received it before (JSR 240, 8.4).
#[tactic(auto, using(crate::proofs::Bases::reached_once))]
pub fn events_reach_entities_once()
    ensures { (s : State) (h : List Entry) → IsSound s → Legal s h → AreTold s h → (v : ℕ) → v < 2 ^ 64 → AreNew (marked_at s v) (reached_in h v) }
{}
