//! Typed effects at their turns.
ghost use Rattle.std.specs.Prelude.{◌≡◌, true, [], List, Some};
ghost use Rattle.std.specs.List.{AllByRecursion};
ghost use Rattle.slee_effect.specs.declared.effect.Effect.{Effect};
ghost use Rattle.script_laws.specs.References.{Refer};
ghost use Rattle.router_laws_effects.specs.Guards.{Guarded};
ghost use Rattle.router_laws_sound.specs.Rooms.{HasRoom, IsDeployed};
ghost use Rattle.router_laws_suiting.specs.Known.{IsDrawn};
ghost use Rattle.router_laws_suiting.specs.Typed.{AllTyped};
ghost use Rattle.router_laws_values.specs.Spelled.{EffectSpelled};
ghost use Rattle.router_state.specs.Queues.{is_waiting};
ghost use Rattle.router_state.specs.State.{State};
ghost use Rattle.router_state.specs.Trees.{entity_at};
ghost use Rattle.router_state.specs.Well.{IsSound};
ghost use Rattle.router_steps.specs.Applying.{Apply};
ghost use Rattle.router_steps.specs.Effects.{after_effects, resolved_in};
ghost use Rattle.router_steps.specs.Scripts.{answers_in};
ghost use Rattle.router_steps.specs.Steps.{Receipt, marked_entity};

/// Each effect of a delivery applies at its turn, where its names are declared and its values have their kinds and spellings, its
/// entity lives below the one that received the event, it refers to what was drawn or made before it, and the run had seen that it
/// may be.
pub fn typed_effects_apply()
    ensures { (s : State) (x : Receipt) (es : List Effect) → IsSound s → IsDeployed s.deployment → is_waiting s.events x.activity ≡ true → entity_at s.entities x.entity.number.0 ≡ Some x.entity → AllTyped s x.entity.number.0 x.entity.block x.activity [] es → AllByRecursion EffectSpelled es → Refer (IsDrawn s) es → Guarded (answers_in s) [] es → HasRoom (after_effects (resolved_in s es) (marked_entity x s)) → Apply x.entity.number.0 (resolved_in s es) (marked_entity x s) }
{}
