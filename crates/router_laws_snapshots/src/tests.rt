//! The tests of well-formed states.
ghost use Rattle.std.specs.Prelude.{◌≡◌, true};
ghost use Rattle.router_state.specs.State.{State};
ghost use Rattle.router_state.specs.Well.{IsWell, is_well};

/// A state is well formed exactly where all tests in one pass.
pub fn tests_in_one_say_the_same()
    ensures well { (s : State) → IsWell s → is_well s ≡ true }
    ensures passes { (s : State) → is_well s ≡ true → IsWell s }
{}
