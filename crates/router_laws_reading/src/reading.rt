//! What is read of the bytes of a state.
ghost use Rattle.std.specs.Prelude.{◌≡◌, ◌++◌, ◌<◌, [], ℕ, List, Ok, None, Some, false, get_or, true};
ghost use Rattle.script_types.specs.Program.{Program};
ghost use Rattle.deploy_model.specs.Deployed.{Deployed};
ghost use Rattle.router_laws_reading.specs.Holding.{CanHold};
ghost use Rattle.router_state.specs.Restoring.{parsed, restored};
ghost use Rattle.router_state.specs.Snapshot.{spelled_state};
ghost use Rattle.router_state.specs.State.{State};
ghost use Rattle.router_state.specs.Well.{is_well};
ghost use Rattle.snapshot_read.specs.Names.{are_named, is_held};

/// A state that is read of bytes has just these bytes where it is well formed, up to those that are left; so it is restored exactly
/// where none are left and it is well formed, in both formats.
pub fn what_is_read_is_spelled()
    ensures spelled { (format : ℕ) (d : Deployed) (p : Program) (bytes : List ℕ) (s : State) (rest : List ℕ) → ((i : ℕ) → get_or bytes i 0 < 256) → parsed format d p bytes ≡ Ok (s, rest) → is_well s ≡ true → spelled_state format s ++ rest ≡ bytes }
    ensures restored { (format : ℕ) (d : Deployed) (p : Program) (bytes : List ℕ) (s : State) → ((i : ℕ) → get_or bytes i 0 < 256) → parsed format d p bytes ≡ Ok (s, []) → is_well s ≡ true → restored format d p bytes ≡ Some s }
    ensures only { (format : ℕ) (d : Deployed) (p : Program) (bytes : List ℕ) (s : State) → ((i : ℕ) → get_or bytes i 0 < 256) → restored format d p bytes ≡ Some s → (parsed format d p bytes ≡ Ok (s, [])) × (is_well s ≡ true) }
    ensures ill { (format : ℕ) (d : Deployed) (p : Program) (bytes : List ℕ) (s : State) (rest : List ℕ) → parsed format d p bytes ≡ Ok (s, rest) → is_well s ≡ false → restored format d p bytes ≡ None }
{}

/// A well-formed state of a deployment whose states can be held is held as rows; so where bytes are none that are held nothing is
/// restored.
pub fn what_is_not_held_is_not_restored()
    ensures held { (s : State) → CanHold s.deployment → is_well s ≡ true → are_named s ≡ true }
    ensures none { (format : ℕ) (d : Deployed) (p : Program) (bytes : List ℕ) → ((i : ℕ) → get_or bytes i 0 < 256) → CanHold d → is_held (parsed format d p bytes) ≡ false → restored format d p bytes ≡ None }
{}
