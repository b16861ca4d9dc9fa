//! The events of a run.
ghost use Rattle.std.specs.Prelude.{◌≡◌, ◌<◌, ◌^◌, ◌++◌, ℕ, List};
ghost use Rattle.router_laws_histories.specs.Suspended.{IsLeftAlone};
ghost use Rattle.router_laws_histories.specs.Words.{AreNew};
ghost use Rattle.router_laws_runs.specs.AsRead.{IsAsRead};
ghost use Rattle.router_state.specs.Queues.{is_suspended};
ghost use Rattle.router_state.specs.State.{State};
ghost use Rattle.router_state.specs.Well.{IsWell};
ghost use Rattle.router_steps.specs.Histories.{Legal, marked_at, pending_at, replay};
ghost use Rattle.trace_history.specs.Reading.{finished_in, queued_in, reached_in};
ghost use Rattle.trace_history.specs.declared.entry.Entry.{Entry};

/// By what its lines say, in every legal history the events of an activity are finished in the order in which they were fired
/// (JSR 240, 7.5), no event reaches an entity twice, nor one that had received it before (JSR 240, 8.4), and while an event is
/// suspended no heading names its activity.
#[tactic(auto, using(crate::proofs::Laws::legal_in_order, crate::proofs::Laws::legal_once, crate::proofs::Laws::legal_waits))]
pub fn events_keep_their_order()
    ensures order { (s : State) (h : List Entry) → IsWell s → IsAsRead s.deployment s.program → Legal s h → (a : ℕ) → a < 2 ^ 64 → pending_at s a ++ queued_in h a ≡ finished_in h a ++ pending_at (replay s h) a }
    ensures once { (s : State) (h : List Entry) → IsWell s → IsAsRead s.deployment s.program → Legal s h → (v : ℕ) → v < 2 ^ 64 → AreNew (marked_at s v) (reached_in h v) }
    ensures suspended { (s : State) (h : List Entry) → IsWell s → IsAsRead s.deployment s.program → Legal s h → (a : ℕ) → a < 2 ^ 64 → IsLeftAlone a (is_suspended s.suspensions a) h }
{}
