//! Laws over the definitions.
ghost use Rattle.std.specs.Prelude.{◌≡◌, ◌++◌, List, Option, ℕ};
ghost use Rattle.slee_value.specs.Reading.{Fault};
ghost use Rattle.slee_effect.specs.declared.effect.Effect.{Effect};
ghost use Rattle.slee_effect.specs.Bytes.{spelled_effect, spelling_of_effects};
ghost use Rattle.slee_effect.specs.Fitting.{FitsEffect, FitEffects};
ghost use Rattle.slee_effect.specs.Names.{StopsFirst};

/// An effect has one spelling, and no spelling of an effect is a front of another's.
pub fn effects_have_one_spelling()
    ensures { (v w : Effect) (r q : List ℕ) → FitsEffect v → FitsEffect w → spelled_effect v ++ r ≡ spelled_effect w ++ q → (v ≡ w) × (r ≡ q) }
{}

/// The same of lists of effects.
pub fn lists_have_one_spelling()
    ensures { (v w : List Effect) (r q : List ℕ) → FitEffects v → FitEffects w → spelling_of_effects v ++ r ≡ spelling_of_effects w ++ q → (v ≡ w) × (r ≡ q) }
{}

/// Reading the name of a field stops at the first byte with which no name begins that comes after the one before.
pub fn names_stop_at_the_first_byte()
    ensures { (before : Option (List ℕ)) (bytes : List ℕ) (fault : Fault) → StopsFirst before bytes fault }
{}
