//! What a run reads at each key.
ghost use Rattle.std.specs.Prelude.{List};
ghost use Rattle.slee_effect.specs.declared.effect.Effect.{Effect};
ghost use Rattle.router_laws_own.specs.Own.{SeesOwn};
ghost use Rattle.router_laws_written.specs.Made.{AreMade, after_made};
ghost use Rattle.router_state.specs.State.{State};
ghost use Rattle.router_steps.specs.Steps.{Receipt};

/// What a run of a delivery reads at any key, its own effects laid over, is what is there once these are done.
pub fn keys_are_read_as_written()
    ensures { (s : State) (x : Receipt) (es : List Effect) → AreMade s x es → SeesOwn s x es (after_made s x es) }
{}
