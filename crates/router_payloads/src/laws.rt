//! Laws over the definitions.
ghost use Rattle.std.specs.Prelude.{◌≡◌, ℕ, Some};
ghost use Rattle.trace_history.specs.declared.choice.Choice.{Choice};
ghost use Rattle.router_state.specs.State.{State};
ghost use Rattle.router_steps.specs.Payloads.{choice_in, payload};
ghost use Rattle.router_steps.specs.Steps.{Subject};
ghost use Rattle.router_payloads.specs.Keeping.{IsSpelled};

/// In each format the choice of a step is read back from its payload.
pub fn payloads_are_read_back()
    ensures { (format : ℕ) (s : State) (c : Choice) (x : Subject) → IsSpelled s c x → choice_in format (payload format s c) ≡ Some c }
{}
