//! Lists of numbers.
ghost use Rattle.std.specs.Prelude.{◌≡◌, ℕ, nat_lt, true, List, filter};
ghost use Rattle.rows_sorted.specs.Orders.{rises_by};
ghost use Rattle.router_laws_closing.specs.Loose.{is_member};

/// What two rising lists of numbers have in common is the same list, whichever of them is looked through.
#[tactic(auto, using(crate::proofs::MeetingLemmas::rising_meet))]
pub fn rising_lists_meet()
    ensures { (xs ys : List ℕ) → rises_by (λ (x y : ℕ). nat_lt x y) xs ≡ true → rises_by (λ (x y : ℕ). nat_lt x y) ys ≡ true → filter (is_member ys) xs ≡ filter (is_member xs) ys }
{}
