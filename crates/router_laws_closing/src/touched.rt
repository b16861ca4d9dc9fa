//! Roots and null activities that a step touched.
ghost use Rattle.std.specs.Prelude.{◌≡◌, ℕ, nat_lt, true, List, filter};
ghost use Rattle.rows_sorted.specs.Orders.{rises_by};
ghost use Rattle.router_laws_closing.specs.Keeping.{AllKeepTrees};
ghost use Rattle.router_laws_closing.specs.Loose.{IsNumbered, is_member};
ghost use Rattle.router_laws_closing.specs.TouchedActivities.{touched_activities};
ghost use Rattle.router_laws_closing.specs.TouchedRoots.{close_standings, lines_of_standings, stands, touched_roots};
ghost use Rattle.router_state.specs.State.{State};
ghost use Rattle.router_state.specs.Changes.{after_changes};
ghost use Rattle.router_state.specs.Ordered.{IsOrdered};
ghost use Rattle.router_state.specs.Trees.{roots};
ghost use Rattle.router_state.specs.Well.{IsClosed};
ghost use Rattle.router_state.specs.declared.change.Change.{Change};
ghost use Rattle.router_steps.specs.Closing.{activity_numbers, close_nulls, close_roots, lines_of_nulls, lines_of_roots};

/// After changes of a closed state that keep trees, closing the roots that they touched, rising, closes all. They are touched by
/// what the changes say and by what was there before, with no look at the states between.
#[tactic(auto, using(crate::proofs::TouchedRootLemmas::touched_roots_close, crate::proofs::TouchedRootLemmas::touched_roots_tell))]
pub fn only_touched_roots_close()
    ensures state { (cs : List Change) (s : State) (ys : List ℕ) → IsClosed s → IsOrdered s → IsNumbered s → AllKeepTrees cs s → rises_by (λ (x y : ℕ). nat_lt x y) ys ≡ true → ((n : ℕ) → is_member ys n ≡ is_member (touched_roots s cs) n) → close_standings (filter (stands (after_changes cs s).entities) ys) (after_changes cs s) ≡ close_roots (roots (after_changes cs s).entities) (after_changes cs s) }
    ensures lines { (cs : List Change) (s : State) (ys : List ℕ) → IsClosed s → IsOrdered s → IsNumbered s → AllKeepTrees cs s → rises_by (λ (x y : ℕ). nat_lt x y) ys ≡ true → ((n : ℕ) → is_member ys n ≡ is_member (touched_roots s cs) n) → lines_of_standings (filter (stands (after_changes cs s).entities) ys) (after_changes cs s) ≡ lines_of_roots (roots (after_changes cs s).entities) (after_changes cs s) }
{}

/// After changes of a closed state, closing the activities that they touched, rising, closes all.
#[tactic(auto, using(crate::proofs::TouchedActivityLemmas::touched_activities_close, crate::proofs::TouchedActivityLemmas::touched_activities_tell))]
pub fn only_touched_activities_close()
    ensures state { (cs : List Change) (s : State) (ys : List ℕ) → IsClosed s → IsOrdered s → rises_by (λ (x y : ℕ). nat_lt x y) ys ≡ true → ((n : ℕ) → is_member ys n ≡ is_member (touched_activities s cs) n) → close_nulls ys (after_changes cs s) ≡ close_nulls (activity_numbers (after_changes cs s)) (after_changes cs s) }
    ensures lines { (cs : List Change) (s : State) (ys : List ℕ) → IsClosed s → IsOrdered s → rises_by (λ (x y : ℕ). nat_lt x y) ys ≡ true → ((n : ℕ) → is_member ys n ≡ is_member (touched_activities s cs) n) → lines_of_nulls ys (after_changes cs s) ≡ lines_of_nulls (activity_numbers (after_changes cs s)) (after_changes cs s) }
{}
