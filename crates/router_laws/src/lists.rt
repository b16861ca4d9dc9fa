//! Lists that rise.
ghost use Rattle.std.specs.Prelude.{◌≡◌, true, List, ℕ};
ghost use Rattle.slee_value.specs.Order.{is_below};
ghost use Rattle.router_state.specs.State.{State};
ghost use Rattle.router_state.specs.Changes.{after_change};
ghost use Rattle.router_state.specs.Ordered.{IsOrdered};
ghost use Rattle.rows_sorted.specs.Orders.{pair_before, text_before, triple_before};
ghost use Rattle.router_state.specs.declared.change.Change.{Change};

/// Every change keeps each list rising, and the numbers that were drawn below the next ones.
pub fn changes_keep_the_lists_rising()
    ensures { (c : Change) (s : State) → IsOrdered s → IsOrdered (after_change c s) }
{}

/// The orders of the lists go on from row to row.
#[tactic(auto, using(crate::proofs::OrderLemmas::below_joins, crate::proofs::OrderLemmas::pair_joins, crate::proofs::OrderLemmas::text_joins, crate::proofs::OrderLemmas::triple_joins))]
pub fn orders_go_on()
    ensures texts { (x y z : List ℕ) → is_below x y ≡ true → is_below y z ≡ true → is_below x z ≡ true }
    ensures pairs { (a b c d e f : ℕ) → pair_before a b c d ≡ true → pair_before c d e f ≡ true → pair_before a b e f ≡ true }
    ensures numbered_texts { (a : ℕ) (x : List ℕ) (b : ℕ) (y : List ℕ) (c : ℕ) (z : List ℕ) → text_before a x b y ≡ true → text_before b y c z ≡ true → text_before a x c z ≡ true }
    ensures masks { (a d : ℕ) (x : List ℕ) (b e : ℕ) (y : List ℕ) (c f : ℕ) (z : List ℕ) → triple_before a d x b e y ≡ true → triple_before b e y c f z ≡ true → triple_before a d x c f z ≡ true }
{}
