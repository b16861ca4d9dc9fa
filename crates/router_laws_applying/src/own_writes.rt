//! What a run sees of its own effects.
ghost use Rattle.std.specs.Prelude.{◌≡◌, ℕ, List, map, Option};
ghost use Rattle.slee_effect.specs.Resolving.{resolved_effect};
ghost use Rattle.slee_effect.specs.declared.effect.Effect.{Effect};
ghost use Rattle.slee_effect.specs.declared.next.Next.{Next};
ghost use Rattle.slee_effect.specs.declared.reference.Ref.{Ref};
ghost use Rattle.script_meaning.specs.Overlay.{activities_by, named_after, overlay_from};
ghost use Rattle.router_laws_applying.specs.Seen.{name_in, numbered};
ghost use Rattle.router_state.specs.State.{State};
ghost use Rattle.router_steps.specs.Effects.{after_effects};

/// What a run reads of a name, its own effects laid over, is what is there once these are done.
#[tactic(auto, using(crate::proofs::Names::names_read))]
pub fn names_are_read_as_written()
    ensures { (next : Next) (n : ℕ) (es : List Effect) (s : State) (name : List ℕ) (base : Option Ref) → name_in s name ≡ numbered next base → name_in (after_effects (map (resolved_effect next) es) s) name ≡ numbered next (overlay_from activities_by (named_after name) n es base) }
{}
