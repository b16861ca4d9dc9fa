//! What a run sees of activities.
ghost use Rattle.std.specs.Prelude.{◌≡◌, ℕ, List, map};
ghost use Rattle.std.specs.List.{AllByRecursion};
ghost use Rattle.slee_value.specs.declared.kind.Kind.{Kind};
ghost use Rattle.slee_effect.specs.Resolving.{resolved_effect, resolved_val};
ghost use Rattle.slee_effect.specs.declared.effect.Effect.{Effect};
ghost use Rattle.slee_effect.specs.declared.next.Next.{Next};
ghost use Rattle.slee_effect.specs.declared.reference.Ref.{Ref};
ghost use Rattle.slee_effect.specs.declared.value.Val.{Val};
ghost use Rattle.script_meaning.specs.Overlay.{activities_by, attr_after, overlay_from};
ghost use Rattle.router_laws_effects.specs.Runs.{IsOld};
ghost use Rattle.router_laws_written.specs.Held.{SetsOld, attribute_held};
ghost use Rattle.router_state.specs.State.{State};
ghost use Rattle.router_steps.specs.Effects.{after_effects};

/// What a run reads of an attribute, its own effects laid over, is what is there once these are done.
pub fn attributes_are_read_as_written()
    ensures { (next : Next) (n : ℕ) (es : List Effect) (s : State) (a : Ref) (key : List ℕ) (kind : Kind) (base : Val) → IsOld next.activity a → AllByRecursion (SetsOld next.activity) es → attribute_held next kind s a key ≡ resolved_val next base → attribute_held next kind (after_effects (map (resolved_effect next) es) s) a key ≡ resolved_val next (overlay_from activities_by (attr_after a key) n es base) }
{}
