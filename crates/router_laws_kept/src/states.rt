//! The states of a deployment whose states can be kept.
ghost use Rattle.std.specs.Prelude.{◌≡◌, ◌<◌, ◌^◌, ℕ, IsTrue, List, Some, length};
ghost use Rattle.script_types.specs.Program.{Program};
ghost use Rattle.deploy_model.specs.Deployed.{Deployed};
ghost use Rattle.router_laws_kept.specs.Kept.{CanBeKept, IsKeepable};
ghost use Rattle.router_state.specs.Initial.{initial};
ghost use Rattle.router_state.specs.Restoring.{snapshot_text, state_of_snapshot};
ghost use Rattle.router_state.specs.Snapshot.{spelled_state};
ghost use Rattle.router_state.specs.State.{State};
ghost use Rattle.router_steps.specs.Histories.{Legal, is_choice, replay};
ghost use Rattle.router_steps.specs.Steps.{after, is_enabled};
ghost use Rattle.trace_history.specs.declared.choice.Choice.{Choice};
ghost use Rattle.trace_history.specs.declared.entry.Entry.{Entry};

/// The first state of a deployment whose states can be kept is one of them, and so is each for which a snapshot stands, and what an
/// enabled choice or a legal history leaves of one.
pub fn states_can_be_kept()
    ensures first { (d : Deployed) (p : Program) → IsKeepable d p → CanBeKept (initial d p) }
    ensures snapshot { (format : ℕ) (d : Deployed) (p : Program) (bytes : List ℕ) (s : State) → IsKeepable d p → state_of_snapshot format d p bytes ≡ Some s → CanBeKept s }
    ensures deployment { (format : ℕ) (d : Deployed) (p : Program) (bytes : List ℕ) (s : State) → state_of_snapshot format d p bytes ≡ Some s → (s.deployment ≡ d) × (s.program ≡ p) }
    ensures step { (s : State) (c : Choice) → CanBeKept s → IsTrue (is_choice c) → IsTrue (is_enabled s c) → CanBeKept (after s c) }
    ensures history { (s : State) (h : List Entry) → CanBeKept s → Legal s h → CanBeKept (replay s h) }
{}

/// The snapshot text of a state that can be kept stands for it, in both formats, where its bytes are fewer than 2^64.
pub fn kept_states_are_read_back()
    ensures { (format : ℕ) (s : State) → CanBeKept s → length (spelled_state format s) < 2 ^ 64 → state_of_snapshot format s.deployment s.program (snapshot_text format s) ≡ Some s }
{}
