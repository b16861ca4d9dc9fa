//! Effects.
ghost use Rattle.std.specs.Prelude.{◌≡◌, ℕ, true, List};
ghost use Rattle.slee_effect.specs.declared.effect.Effect.{Effect};
ghost use Rattle.router_laws_sound.specs.Rooms.{HasRoom, IsDeployed};
ghost use Rattle.router_state.specs.State.{State};
ghost use Rattle.router_state.specs.Well.{IsSound};
ghost use Rattle.router_steps.specs.Applying.{applies, done_effects};
ghost use Rattle.router_steps.specs.Effects.{after_effect};

/// Each effect that applies keeps every part sound, and so do the effects of a delivery, of which those that apply are done.
pub fn effects_keep_states_sound()
    ensures one { (me : ℕ) (x : Effect) (s : State) → IsSound s → IsDeployed s.deployment → HasRoom (after_effect x s) → applies me x s ≡ true → IsSound (after_effect x s) }
    ensures all { (me : ℕ) (xs : List Effect) (s : State) → IsSound s → IsDeployed s.deployment → HasRoom (done_effects me xs s) → IsSound (done_effects me xs s) }
{}
