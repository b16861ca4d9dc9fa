//! That well-formed states can be put into stores.
ghost use Rattle.router_state.specs.State.{State};
ghost use Rattle.router_state.specs.Well.{IsSound};
ghost use Rattle.snapshot_stores.specs.Storing.{CanBeStored};

/// A sound state can be put into stores.
pub fn sound_states_can_be_stored()
    ensures { (s : State) → IsSound s → CanBeStored s }
{}
