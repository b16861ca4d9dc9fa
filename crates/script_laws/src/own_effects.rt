//! A run reads what it wrote itself: what each of its effects does to what is read behind it. `es` are the effects before.
ghost use Rattle.std.specs.Prelude.{◌≡◌, ℕ, ℤ, Bool, true, false, not, List, [], ◌∷◌, ◌++◌, Option, Some, None, filter};
ghost use Rattle.slee_value.specs.declared.keep.Keep.{Keep};
ghost use Rattle.slee_effect.specs.declared.reference.Ref.{Ref};
ghost use Rattle.slee_effect.specs.declared.reference.Ref.TheVariants.{Fresh};
ghost use Rattle.slee_effect.specs.declared.value.Val.{Val};
ghost use Rattle.slee_effect.specs.declared.effect.Effect.{Effect};
ghost use Rattle.slee_effect.specs.declared.effect.Effect.TheVariants as ef;
ghost use Rattle.script_meaning.specs.declared.seen.AcSeen.{AcSeen};
ghost use Rattle.script_meaning.specs.Overlay.{same_ref, count_of, overlay, entities_by, activities_by, timers_by, field_after, attr_after, children_after, priority_after, ended, activity_after, attached_after, named_after, timer_after};

/// Fields, attributes and priorities have the value that they were given.
pub fn values_that_a_run_gave_are_read()
    ensures field { (es : List Effect) (e : Ref) (name : List ℕ) (value base : Val) → overlay entities_by (field_after e name) (es ++ ef.SetField e name value ∷ []) base ≡ value }
    ensures attribute { (es : List Effect) (a : Ref) (key : List ℕ) (value base : Val) → overlay activities_by (attr_after a key) (es ++ ef.SetAttr a key value ∷ []) base ≡ value }
    ensures priority { (es : List Effect) (e : Ref) (n base : ℤ) → overlay entities_by (priority_after e) (es ++ ef.SetPriority e n ∷ []) base ≡ n }
{}

/// A child that was made is the last of its relation, and one that was removed isn't among them.
pub fn children_of_a_run_are_read()
    ensures made { (es : List Effect) (e : Ref) (relation : List ℕ) (n : ℤ) (base : List Ref) → overlay entities_by (children_after e relation) (es ++ ef.Create e relation n ∷ []) base ≡ overlay entities_by (children_after e relation) es base ++ Fresh (count_of entities_by es) ∷ [] }
    ensures gone { (es : List Effect) (e child : Ref) (relation : List ℕ) (base : List Ref) → overlay entities_by (children_after e relation) (es ++ ef.Remove child ∷ []) base ≡ filter (λ r. not (same_ref r child)) (overlay entities_by (children_after e relation) es base) }
{}

/// A null activity that was made is there and Active, and one that was ended is Ending. An entity that was attached is attached.
pub fn activities_of_a_run_are_read()
    ensures made { (es : List Effect) (base : Option AcSeen) → overlay activities_by (activity_after (Fresh (count_of activities_by es))) (es ++ ef.NewNull ∷ []) base ≡ Some (record { null = true; ending = false }) }
    ensures ended { (es : List Effect) (a : Ref) (base : Option AcSeen) → overlay activities_by (activity_after a) (es ++ ef.EndNull a ∷ []) base ≡ ended (overlay activities_by (activity_after a) es base) }
    ensures attached { (es : List Effect) (e a : Ref) (base : Bool) → overlay activities_by (attached_after e a) (es ++ ef.Attach e a ∷ []) base ≡ true }
    ensures detached { (es : List Effect) (e a : Ref) (base : Bool) → overlay activities_by (attached_after e a) (es ++ ef.Detach e a ∷ []) base ≡ false }
{}

/// A name that was bound stands for its activity, and a timer that was set stands on it; what was taken back is gone.
pub fn names_and_timers_of_a_run_are_read()
    ensures bound { (es : List Effect) (name : List ℕ) (a : Ref) (base : Option Ref) → overlay activities_by (named_after name) (es ++ ef.Bind name a ∷ []) base ≡ Some a }
    ensures free { (es : List Effect) (name : List ℕ) (base : Option Ref) → overlay activities_by (named_after name) (es ++ ef.Unbind name ∷ []) base ≡ None }
    ensures set { (es : List Effect) (a : Ref) (start period times : ℕ) (keep : Keep) (base : Option Ref) → overlay timers_by (timer_after (Fresh (count_of timers_by es))) (es ++ ef.SetTimer a start period times keep ∷ []) base ≡ Some a }
    ensures cancelled { (es : List Effect) (t : Ref) (base : Option Ref) → overlay timers_by (timer_after t) (es ++ ef.CancelTimer t ∷ []) base ≡ None }
{}
