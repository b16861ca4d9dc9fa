//! Laws over the definitions.
ghost use Rattle.std.specs.Prelude.{List};
ghost use Rattle.router_state.specs.State.{State};
ghost use Rattle.router_state.specs.Fitting.{FitChanges, FitsChange};
ghost use Rattle.router_state.specs.declared.change.Change.{Change};
ghost use Rattle.router_stores.specs.Making.{CanMake, CanMakeAll};

/// Changes that fit can be made.
pub fn fitting_changes_can_be_made()
    ensures one { (c : Change) (s : State) → FitsChange c s → CanMake c s }
    ensures each { (cs : List Change) (s : State) → FitChanges cs s → CanMakeAll cs s }
{}
