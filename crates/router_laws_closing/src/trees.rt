//! Trees that go, and changes that keep trees.
ghost use Rattle.std.specs.Prelude.{◌≡◌, ℕ, List};
ghost use Rattle.router_laws.specs.Forest.{AreBelowChildren, IsIn};
ghost use Rattle.router_laws_closing.specs.Keeping.{AllKeepTrees, KeepsTrees};
ghost use Rattle.router_laws_closing.specs.Loose.{IsNumbered};
ghost use Rattle.router_state.specs.State.{State};
ghost use Rattle.router_state.specs.Changes.{after_change, after_changes};
ghost use Rattle.router_state.specs.Fitting.{FitChanges};
ghost use Rattle.router_state.specs.Trees.{tree_of};
ghost use Rattle.router_state.specs.declared.change.Change.{Change};
ghost use Rattle.router_state.specs.declared.rows.Entity.{Entity};
ghost use Rattle.router_steps.specs.Going.{all_removed, changes_of_all_removed};

/// A tree goes by changes that keep trees, each at its turn: nothing is below an entity then, and it is attached nowhere.
#[tactic(auto, using(crate::proofs::GoingLemmas::tree_keeps, crate::proofs::GoingLemmas::all_gone))]
pub fn trees_go_by_changes_that_keep_trees()
    ensures keep { (s : State) (top : Entity) → AreBelowChildren s.entities → IsIn top s.entities → AllKeepTrees (changes_of_all_removed (tree_of s.entities top.number.0) s) s }
    ensures state { (es : List ℕ) (s : State) → after_changes (changes_of_all_removed es s) s ≡ all_removed es s }
{}

/// Changes that fit keep trees.
#[tactic(auto, using(crate::proofs::KeepingLemmas::all_keep))]
pub fn changes_that_fit_keep_trees()
    ensures { (cs : List Change) (s : State) → FitChanges cs s → AllKeepTrees cs s }
{}

/// A change that keeps trees keeps parents below their children, and all numbers below the next one.
#[tactic(auto, using(crate::proofs::FreedLemmas::numbered_after))]
pub fn changes_keep_entities_numbered()
    ensures { (c : Change) (s : State) → KeepsTrees c s → IsNumbered s → IsNumbered (after_change c s) }
{}
