//! Closing.
ghost use Rattle.std.specs.Prelude.{◌≡◌, []};
ghost use Rattle.router_state.specs.State.{State};
ghost use Rattle.router_state.specs.Well.{IsClosed};
ghost use Rattle.router_steps.specs.Closing.{closing, lines_of_closing};

/// Closing a state that is closed, as every well-formed one is, changes nothing and gives no line.
#[tactic(auto, using(crate::proofs::ClosingLemmas::closed_stays, crate::proofs::ClosingLemmas::closed_silent))]
pub fn closing_leaves_closed_states()
    ensures state { (s : State) → IsClosed s → closing s ≡ s }
    ensures lines { (s : State) → IsClosed s → lines_of_closing s ≡ [] }
{}
