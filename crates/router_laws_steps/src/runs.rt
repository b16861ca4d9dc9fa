//! Runs, and what their lines say.
ghost use Rattle.std.specs.Prelude.{◌≡◌, ◌<◌, ◌^◌, ◌++◌, ℕ, List};
ghost use Rattle.router_laws_histories.specs.Suspended.{IsLeftAlone};
ghost use Rattle.router_laws_histories.specs.Words.{AreNew};
ghost use Rattle.router_laws_steps.specs.About.{IsRun};
ghost use Rattle.router_state.specs.Queues.{is_suspended};
ghost use Rattle.router_state.specs.State.{State};
ghost use Rattle.router_steps.specs.Histories.{marked_at, pending_at, replay};
ghost use Rattle.trace_history.specs.Reading.{finished_in, queued_in, reached_in};
ghost use Rattle.trace_history.specs.declared.entry.Entry.{Entry};

/// Of every run, by what its lines say: events are finished in the order in which they were fired, no event reaches an entity
/// twice, and while an event is suspended no heading names its activity.
pub fn runs_keep_their_order()
    ensures order { (s : State) (h : List Entry) → IsRun s h → (a : ℕ) → a < 2 ^ 64 → pending_at s a ++ queued_in h a ≡ finished_in h a ++ pending_at (replay s h) a }
    ensures once { (s : State) (h : List Entry) → IsRun s h → (v : ℕ) → v < 2 ^ 64 → AreNew (marked_at s v) (reached_in h v) }
    ensures suspended { (s : State) (h : List Entry) → IsRun s h → (a : ℕ) → a < 2 ^ 64 → IsLeftAlone a (is_suspended s.suspensions a) h }
{}
