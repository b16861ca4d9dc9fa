//! The text of a snapshot in a journal, which is empty for the first state.
ghost use Rattle.std.specs.Prelude.{◌≡◌, ◌<◌, ◌^◌, ◌⊎◌, ℕ, [], List, Some, length};
ghost use Rattle.script_types.specs.Program.{Program};
ghost use Rattle.deploy_model.specs.Deployed.{Deployed};
ghost use Rattle.router_laws_snapshots.specs.Named.{IsNamed};
ghost use Rattle.router_state.specs.Initial.{initial};
ghost use Rattle.router_state.specs.Restoring.{IsSnapshot, snapshot_text, state_of_snapshot};
ghost use Rattle.router_state.specs.Snapshot.{spelled_state};
ghost use Rattle.router_state.specs.State.{State};
ghost use Rattle.router_state.specs.Well.{IsWell};

/// The snapshot text of a well-formed state stands for it, in both formats, be it the first state of its deployment or not. What a
/// text stands for is the first state, where it is empty, or else the well-formed state that has these bytes.
pub fn snapshot_texts_are_read_back()
    ensures back { (format : ℕ) (s : State) → IsNamed s.deployment → IsWell s → length (spelled_state format s) < 2 ^ 64 → state_of_snapshot format s.deployment s.program (snapshot_text format s) ≡ Some s }
    ensures only { (format : ℕ) (d : Deployed) (p : Program) (bytes : List ℕ) (s : State) → state_of_snapshot format d p bytes ≡ Some s → ((bytes ≡ []) × (s ≡ initial d p)) ⊎ IsSnapshot format d p bytes s }
{}

/// Two well-formed states of one deployment that have the same snapshot text are one.
pub fn snapshot_texts_tell_states_apart()
    ensures { (format : ℕ) (s t : State) → s.deployment ≡ t.deployment → s.program ≡ t.program → IsNamed s.deployment → IsWell s → IsWell t → length (spelled_state format s) < 2 ^ 64 → length (spelled_state format t) < 2 ^ 64 → snapshot_text format s ≡ snapshot_text format t → s ≡ t }
{}
