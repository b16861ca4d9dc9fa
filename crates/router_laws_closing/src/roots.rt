//! Roots.
ghost use Rattle.std.specs.Prelude.{◌≡◌, ℕ, Bool, true, List, filter};
ghost use Rattle.rows_sorted.specs.Orders.{rises_in};
ghost use Rattle.router_laws_closing.specs.Keeping.{AllKeepTrees};
ghost use Rattle.router_laws_closing.specs.Loose.{AreLooseAmong, IsNumbered, freed_by};
ghost use Rattle.router_state.specs.State.{State};
ghost use Rattle.router_state.specs.Changes.{after_changes};
ghost use Rattle.router_state.specs.Trees.{number_of, roots};
ghost use Rattle.router_state.specs.Well.{IsClosed};
ghost use Rattle.router_state.specs.declared.change.Change.{Change};
ghost use Rattle.router_steps.specs.Closing.{close_roots, lines_of_roots};

/// When roots are closed one after another, those that aren't loose at first may be left out: no root that goes makes another loose.
#[tactic(auto, using(crate::proofs::RootLemmas::roots_skipped, crate::proofs::RootLemmas::roots_silent))]
pub fn only_loose_roots_go()
    ensures state { (among : ℕ → Bool) (es : List ℕ) (s : State) → AreLooseAmong among s.entities s.links es → close_roots es s ≡ close_roots (filter among es) s }
    ensures lines { (among : ℕ → Bool) (es : List ℕ) (s : State) → AreLooseAmong among s.entities s.links es → lines_of_roots es s ≡ lines_of_roots (filter among es) s }
{}

/// After changes of a closed state that keep trees, each root in whose tree nothing is attached was freed by one of them.
#[tactic(auto, using(crate::proofs::FreedLemmas::only_freed))]
pub fn only_freed_roots_are_loose()
    ensures { (cs : List Change) (s : State) → IsClosed s → IsNumbered s → AllKeepTrees cs s → rises_in number_of (after_changes cs s).entities ≡ true → AreLooseAmong (freed_by cs s) (after_changes cs s).entities (after_changes cs s).links (roots (after_changes cs s).entities) }
{}
