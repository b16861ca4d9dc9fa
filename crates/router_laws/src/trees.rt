//! Trees of entities.
ghost use Rattle.std.specs.Prelude.{List};
ghost use Rattle.router_laws.specs.Forest.{AreBelowChildren, AreWhole};
ghost use Rattle.router_state.specs.declared.rows.Entity.{Entity};

/// A tree has each child of what is in it: as many generations as there are entities suffice, where a parent's number is below its child's.
#[tactic(auto, using(crate::proofs::ForestLemmas::trees_whole))]
pub fn trees_are_whole()
    ensures { (rows : List Entity) → AreBelowChildren rows → AreWhole rows }
{}
