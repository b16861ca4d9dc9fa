//! Laws over the definitions.
ghost use Rattle.std.specs.Prelude.{List};
ghost use Rattle.router_state.specs.State.{State};
ghost use Rattle.router_state.specs.Changes.{after_changes};
ghost use Rattle.router_state.specs.declared.change.Change.{Change};
ghost use Rattle.router_stores.specs.Making.{CanMakeAll};
ghost use Rattle.router_draft.specs.Drafts.{AreTrees};

/// Changes that can be made keep entities in trees: parents below their children, and all numbers below the next one.
#[tactic(auto, using(crate::proofs::MakingLemmas::trees_after))]
pub fn changes_keep_trees()
    ensures { (cs : List Change) (s : State) → CanMakeAll cs s → AreTrees s → AreTrees (after_changes cs s) }
{}
