//! Laws over the definitions.
ghost use Rattle.std.specs.Prelude.{◌≡◌, ◌++◌, List, ℕ};
ghost use Rattle.slee_value.specs.declared.value.Value.{Value};
ghost use Rattle.slee_value.specs.Bytes.{spelling_of_value, Fits, FitsBytes, FitsText, spelled_bytes, spelled_text};

/// A value has one spelling, and no spelling of a value is a front of another's.
pub fn values_have_one_spelling()
    ensures { (v w : Value) (r q : List ℕ) → Fits v → Fits w → spelling_of_value v ++ r ≡ spelling_of_value w ++ q → (v ≡ w) × (r ≡ q) }
{}

/// The same of texts.
pub fn texts_have_one_spelling()
    ensures { (v w r q : List ℕ) → FitsText v → FitsText w → spelled_text v ++ r ≡ spelled_text w ++ q → (v ≡ w) × (r ≡ q) }
{}

/// The same of bytes of any kind with their count.
pub fn bytes_have_one_spelling()
    ensures { (v w r q : List ℕ) → FitsBytes v → FitsBytes w → spelled_bytes v ++ r ≡ spelled_bytes w ++ q → (v ≡ w) × (r ≡ q) }
{}
