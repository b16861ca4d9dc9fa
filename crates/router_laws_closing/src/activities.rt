//! Null activities.
ghost use Rattle.std.specs.Prelude.{◌≡◌, ℕ, Bool, List, filter};
ghost use Rattle.router_laws_closing.specs.Idle.{AreIdleAmong, released_by};
ghost use Rattle.router_state.specs.State.{State};
ghost use Rattle.router_state.specs.Changes.{after_changes};
ghost use Rattle.router_state.specs.Well.{IsClosed};
ghost use Rattle.router_state.specs.declared.change.Change.{Change};
ghost use Rattle.router_steps.specs.Closing.{close_nulls, lines_of_nulls};

/// After changes of a closed state only null activities that one of them released are idle. When several are closed, those
/// that aren't idle may be left out.
#[tactic(auto, using(crate::proofs::IdleLemmas::only_released, crate::proofs::IdleLemmas::nulls_skipped, crate::proofs::IdleLemmas::nulls_silent))]
pub fn only_released_activities_end()
    ensures idle { (cs : List Change) (s : State) → IsClosed s → AreIdleAmong (released_by cs s) (after_changes cs s) }
    ensures state { (among : ℕ → Bool) (all : List ℕ) (s : State) → AreIdleAmong among s → close_nulls all s ≡ close_nulls (filter among all) s }
    ensures lines { (among : ℕ → Bool) (all : List ℕ) (s : State) → AreIdleAmong among s → lines_of_nulls all s ≡ lines_of_nulls (filter among all) s }
{}
