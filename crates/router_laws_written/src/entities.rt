//! What a run sees of entities that live in it: the one that received the event, and those below it.
ghost use Rattle.std.specs.Prelude.{◌≡◌, ℕ, List, Some};
ghost use Rattle.script_meaning.specs.Overlay.{activities_after, activities_by, entities_by, field_after, masks_after, overlay, priority_after};
ghost use Rattle.script_types.specs.Codes.{named};
ghost use Rattle.script_types.specs.declared.codes.FieldCode.{FieldCode};
ghost use Rattle.slee_effect.specs.Resolving.{resolved_val};
ghost use Rattle.slee_effect.specs.declared.effect.Effect.{Effect};
ghost use Rattle.slee_effect.specs.declared.reference.Ref.{Ref};
ghost use Rattle.deploy_model.specs.Deployed.{block_fields};
ghost use Rattle.router_laws_applying.specs.Suited.{LivesAtAll, LivesSomewhere};
ghost use Rattle.router_laws_effects.specs.Runs.{IsOld};
ghost use Rattle.router_laws_written.specs.Held.{BeginsWith, activities_held, activities_told, activity_numbers, field_held, field_told, has_mask, masks_held, masks_told, priority_held, priority_told};
ghost use Rattle.router_laws_written.specs.Made.{AreMade, after_made};
ghost use Rattle.router_state.specs.State.{State};
ghost use Rattle.router_steps.specs.Effects.{next_in};
ghost use Rattle.router_steps.specs.Steps.{Receipt};

/// What a run reads of a declared field of an SBB entity, its own effects laid over, is what the field holds once these are done, a
/// field of a new entity included.
pub fn fields_are_read_as_written()
    ensures { (s : State) (x : Receipt) (es : List Effect) → AreMade s x es → (block : ℕ) (e : Ref) → LivesSomewhere s x.entity.number.0 x.entity.block es block e → (name : List ℕ) (f : FieldCode) → named (λ (f : FieldCode). f.name) name (block_fields s.deployment block) ≡ Some f → field_held (next_in s) f.kind (after_made s x es) e name ≡ resolved_val (next_in s) (overlay entities_by (field_after e name) es (field_told s f.kind e name)) }
{}

/// What a run reads of the event delivery priority of an SBB entity, its own effects laid over, is what it is once these are done.
pub fn priorities_are_read_as_written()
    ensures { (s : State) (x : Receipt) (es : List Effect) → AreMade s x es → (e : Ref) → LivesAtAll s x.entity.number.0 x.entity.block es e → priority_held (next_in s) (after_made s x es) e ≡ overlay entities_by (priority_after e) es (priority_told s e) }
{}

/// Whether a run reads that an SBB entity is attached and masks an event there, its own effects laid over, is so once these are done;
/// `first` are the events that are masked where an entity of its block is attached.
pub fn masks_are_read_as_written()
    ensures { (s : State) (x : Receipt) (es : List Effect) → AreMade s x es → (block : ℕ) (e : Ref) → LivesSomewhere s x.entity.number.0 x.entity.block es block e → (a : Ref) → IsOld s.next_activity a → (event : List ℕ) (first : List (List ℕ)) → BeginsWith s.deployment event first block → has_mask event (masks_held (next_in s) (after_made s x es) e a) ≡ has_mask event (overlay activities_by (masks_after first e a) es (masks_told s e a)) }
{}

/// The activities that a run reads of an SBB entity, its own effects laid over, are those to which it is attached once these are
/// done, in the same order.
pub fn activities_of_entities_are_read_as_written()
    ensures { (s : State) (x : Receipt) (es : List Effect) → AreMade s x es → (e : Ref) → LivesAtAll s x.entity.number.0 x.entity.block es e → activities_held (next_in s) (after_made s x es) e ≡ activity_numbers (next_in s) (overlay activities_by (activities_after e) es (activities_told s e)) }
{}
