//! What a run sees of its own effects.
ghost use Rattle.std.specs.Prelude.{◌≡◌, ℕ, List, map};
ghost use Rattle.std.specs.List.{AllByRecursion};
ghost use Rattle.slee_effect.specs.Resolving.{resolved_effect};
ghost use Rattle.slee_effect.specs.declared.effect.Effect.{Effect};
ghost use Rattle.slee_effect.specs.declared.next.Next.{Next};
ghost use Rattle.slee_effect.specs.declared.reference.Ref.{Ref};
ghost use Rattle.script_meaning.specs.Overlay.{activities_by, activity_after, overlay_from};
ghost use Rattle.router_laws_effects.specs.Runs.{EndsOld, IsAmidst, IsOld, activity_seen};
ghost use Rattle.router_state.specs.State.{State};
ghost use Rattle.router_steps.specs.Effects.{after_effects};

/// What a run reads of an activity, its own effects laid over, is what is there once these are done.
#[tactic(auto, using(crate::proofs::OwnWrites::activities_read))]
pub fn activities_are_read_as_written()
    ensures { (next : Next) (n : ℕ) (es : List Effect) (s : State) (r : Ref) → IsAmidst next n s → AllByRecursion (EndsOld next.activity) es → IsOld next.activity r → activity_seen next (after_effects (map (resolved_effect next) es) s) r ≡ overlay_from activities_by (activity_after r) n es (activity_seen next s r) }
{}
