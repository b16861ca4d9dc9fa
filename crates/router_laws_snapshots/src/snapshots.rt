//! The bytes of a state.
ghost use Rattle.std.specs.Prelude.{◌≡◌, ◌<◌, ◌^◌, ℕ, List, Some, length};
ghost use Rattle.script_types.specs.Program.{Program};
ghost use Rattle.deploy_model.specs.Deployed.{Deployed};
ghost use Rattle.router_laws_snapshots.specs.Named.{IsNamed};
ghost use Rattle.router_state.specs.Restoring.{IsSnapshot, restored};
ghost use Rattle.router_state.specs.Snapshot.{spelled_state};
ghost use Rattle.router_state.specs.State.{State};
ghost use Rattle.router_state.specs.Well.{IsWell};

/// The bytes of a well-formed state are read back as it, in both formats, where the names of its deployment lead back to what has
/// them and the bytes are fewer than 2^64, as all are that stand in memory.
pub fn snapshots_are_read_back()
    ensures state { (format : ℕ) (s : State) → IsNamed s.deployment → IsWell s → length (spelled_state format s) < 2 ^ 64 → restored format s.deployment s.program (spelled_state format s) ≡ Some s }
    ensures bytes { (format : ℕ) (d : Deployed) (p : Program) (bytes : List ℕ) (s : State) → IsNamed d → length bytes < 2 ^ 64 → IsSnapshot format d p bytes s → restored format d p bytes ≡ Some s }
{}

/// What is read of bytes is a well-formed state of the deployment and its program that has these bytes.
pub fn restored_states_have_their_bytes()
    ensures { (format : ℕ) (d : Deployed) (p : Program) (bytes : List ℕ) (s : State) → restored format d p bytes ≡ Some s → IsSnapshot format d p bytes s }
{}

/// Two well-formed states of one deployment that have the same bytes are one.
pub fn snapshots_tell_states_apart()
    ensures { (format : ℕ) (d : Deployed) (p : Program) (bytes : List ℕ) (s t : State) → IsNamed d → length bytes < 2 ^ 64 → IsSnapshot format d p bytes s → IsSnapshot format d p bytes t → s ≡ t }
{}
