//! Laws on attempts, over the definitions: what conflicts is seen otherwise, what doesn't is seen still, and then the outcome is the state's.
ghost use Rattle.std.specs.Prelude.{◌≡◌, ℕ, List, Some, None};
ghost use Rattle.slee_value.specs.declared.ids.ActivityId.{ActivityId};
ghost use Rattle.slee_value.specs.declared.ids.EntityId.{EntityId};
ghost use Rattle.slee_value.specs.declared.value.Value.{Value};
ghost use Rattle.script_types.specs.Program.{Program};
ghost use Rattle.script_meaning.specs.declared.key.Key.{Key};
ghost use Rattle.script_meaning.specs.declared.seen.Seen.{Seen};
ghost use Rattle.script_meaning.specs.Answers.{kept};
ghost use Rattle.script_meaning.specs.Delivery.{Delivered, Complete, delivered};
ghost use Rattle.handler_run.specs.Views.{Holds, all_answers, conflict};

/// Where nothing conflicts, all that was seen is seen still.
pub fn what_does_not_conflict_holds()
    ensures { (seen_at : Key → Seen) (known : List (Key × Seen)) → conflict seen_at known ≡ None → Holds seen_at known }
{}

/// Where something conflicts, something else is seen now than was seen.
pub fn what_conflicts_is_seen_otherwise()
    ensures { (seen_at : Key → Seen) (known : List (Key × Seen)) (key : Key) (saw found : Seen) → conflict seen_at known ≡ Some (key, saw, found) → (found ≡ seen_at key) × (saw ≡ found → ⊥) }
{}

/// Determinacy: where all that is known is seen so, the delivery that is complete over what is known comes to the same over all that is seen.
pub fn attempts_decide()
    ensures { (seen_at : Key → Seen) (known : List (Key × Seen)) (program : Program) (number : ℕ) (e : EntityId) (a : ActivityId) (event : List ℕ) (fields : List (List ℕ × Value)) (delivery : Delivered) → Holds seen_at known → delivered (kept known) program number e a event fields ≡ Complete delivery → delivered (all_answers seen_at) program number e a event fields ≡ Complete delivery }
{}
