//! Steps and histories.
ghost use Rattle.std.specs.Prelude.{◌≡◌, ◌++◌, List};
ghost use Rattle.router_state.specs.State.{State};
ghost use Rattle.router_steps.specs.Histories.{replay, Legal};
ghost use Rattle.router_steps.specs.Steps.{after};
ghost use Rattle.trace_history.specs.declared.choice.Choice.{Choice};
ghost use Rattle.trace_history.specs.declared.entry.Entry.{Entry};

/// No step changes what was deployed, nor its scripts.
#[tactic(auto, using(crate::proofs::KeptLemmas::deployment_kept, crate::proofs::KeptLemmas::program_kept, crate::proofs::KeptLemmas::deployment_replayed, crate::proofs::KeptLemmas::program_replayed))]
pub fn steps_keep_the_deployment()
    ensures deployment { (s : State) (c : Choice) → (after s c).deployment ≡ s.deployment }
    ensures program { (s : State) (c : Choice) → (after s c).program ≡ s.program }
    ensures deployment_behind { (s : State) (h : List Entry) → (replay s h).deployment ≡ s.deployment }
    ensures program_behind { (s : State) (h : List Entry) → (replay s h).program ≡ s.program }
{}

/// Where a legal history ends, another one goes on: together they are one legal history.
#[tactic(auto, using(crate::proofs::HistoryLemmas::replay_append, crate::proofs::HistoryLemmas::legal_append))]
pub fn histories_go_on()
    ensures state { (s : State) (h k : List Entry) → replay s (h ++ k) ≡ replay (replay s h) k }
    ensures legal { (s : State) (h k : List Entry) → Legal s h → Legal (replay s h) k → Legal s (h ++ k) }
{}
