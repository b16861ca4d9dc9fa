//! Effects at their turns.
ghost use Rattle.std.specs.Prelude.{◌≡◌, true, [], ℕ, List, Some};
ghost use Rattle.slee_effect.specs.declared.effect.Effect.{Effect};
ghost use Rattle.router_laws_applying.specs.Behind.{IsBehind};
ghost use Rattle.router_laws_applying.specs.Suited.{AllSuit};
ghost use Rattle.router_laws_effects.specs.Guards.{Guarded};
ghost use Rattle.router_laws_sound.specs.Rooms.{HasRoom, IsDeployed};
ghost use Rattle.router_state.specs.Queues.{is_waiting};
ghost use Rattle.router_state.specs.State.{State};
ghost use Rattle.router_state.specs.Trees.{entity_at};
ghost use Rattle.router_state.specs.Well.{IsSound};
ghost use Rattle.router_steps.specs.Applying.{Apply, applying};
ghost use Rattle.router_steps.specs.Effects.{after_effects, resolved_in};
ghost use Rattle.router_steps.specs.Scripts.{answers_in};
ghost use Rattle.router_steps.specs.Steps.{Receipt, marked_entity};

/// Each effect that suits a delivery, and was made where the run had seen that it may be, applies at its turn: what it refers to is
/// there, and is as it was declared.
pub fn guarded_effects_apply()
    ensures { (s : State) (x : Receipt) (es : List Effect) → IsSound s → IsDeployed s.deployment → is_waiting s.events x.activity ≡ true → entity_at s.entities x.entity.number.0 ≡ Some x.entity → AllSuit s x.entity.number.0 x.entity.block x.activity [] es → Guarded (answers_in s) [] es → HasRoom (after_effects (resolved_in s es) (marked_entity x s)) → Apply x.entity.number.0 (resolved_in s es) (marked_entity x s) }
{}

/// Where all effects apply, none of them is left out.
#[tactic(auto, using(crate::proofs::Beginning::all_applying))]
pub fn effects_that_apply_are_all_done()
    ensures { (me : ℕ) (xs : List Effect) (s : State) → Apply me xs s → applying me xs s ≡ xs }
{}

/// What a run sees of its own effects is there once they are done: of activities, of names, of the children and the attachments of
/// what stays.
pub fn effects_are_seen_as_done()
    ensures { (s : State) (x : Receipt) (es : List Effect) → IsSound s → IsDeployed s.deployment → is_waiting s.events x.activity ≡ true → entity_at s.entities x.entity.number.0 ≡ Some x.entity → AllSuit s x.entity.number.0 x.entity.block x.activity [] es → Guarded (answers_in s) [] es → HasRoom (after_effects (resolved_in s es) (marked_entity x s)) → IsBehind s x.entity.number.0 x.entity.block x.activity es (after_effects (resolved_in s es) (marked_entity x s)) }
{}
