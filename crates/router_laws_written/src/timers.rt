//! What a run sees of timers.
ghost use Rattle.std.specs.Prelude.{◌≡◌, List};
ghost use Rattle.script_meaning.specs.Overlay.{overlay, timer_after, timers_by};
ghost use Rattle.slee_effect.specs.declared.effect.Effect.{Effect};
ghost use Rattle.slee_effect.specs.declared.reference.Ref.{Ref};
ghost use Rattle.router_laws_applying.specs.Seen.{numbered};
ghost use Rattle.router_laws_effects.specs.Runs.{IsOld};
ghost use Rattle.router_laws_written.specs.Held.{timer_held, timer_told};
ghost use Rattle.router_laws_written.specs.Made.{AreMade, after_made};
ghost use Rattle.router_state.specs.State.{State};
ghost use Rattle.router_steps.specs.Effects.{next_in};
ghost use Rattle.router_steps.specs.Steps.{Receipt};

/// What a run reads of the activity on which a timer stands, its own effects laid over, is so once these are done.
pub fn timers_are_read_as_written()
    ensures { (s : State) (x : Receipt) (es : List Effect) → AreMade s x es → (r : Ref) → IsOld s.next_timer r → timer_held (next_in s) (after_made s x es) r ≡ numbered (next_in s) (overlay timers_by (timer_after r) es (timer_told s r)) }
{}
