//! Paths of entities.
ghost use Rattle.std.specs.Prelude.{◌≡◌, true, false, List, ℕ, ℤ, map};
ghost use Rattle.router_state.specs.Paths.{path_before};

/// The order of paths is strict, and two paths of which neither comes before the other have the same numbers. So of two entities
/// one comes before the other, and the first of several is the same whatever the order in which they are looked at.
#[tactic(auto, using(crate::proofs::PathLemmas::path_strict, crate::proofs::PathLemmas::path_joins, crate::proofs::PathLemmas::path_total))]
pub fn paths_are_in_one_order()
    ensures strict { (p : List (ℤ × ℕ)) → path_before p p ≡ false }
    ensures goes_on { (p q r : List (ℤ × ℕ)) → path_before p q ≡ true → path_before q r ≡ true → path_before p r ≡ true }
    ensures total { (p q : List (ℤ × ℕ)) → path_before p q ≡ false → path_before q p ≡ false → map (λ (x : ℤ × ℕ). x.1) p ≡ map (λ (x : ℤ × ℕ). x.1) q }
{}
