//! What closing leaves.
ghost use Rattle.std.specs.Prelude.{◌≡◌, true};
ghost use Rattle.rows_sorted.specs.Orders.{rises_in};
ghost use Rattle.router_laws.specs.Forest.{AreBelowChildren};
ghost use Rattle.router_state.specs.State.{State};
ghost use Rattle.router_state.specs.Trees.{number_of};
ghost use Rattle.router_state.specs.Well.{IsClosed};
ghost use Rattle.router_state.specs.declared.rows.Activity.{Activity};
ghost use Rattle.router_steps.specs.Closing.{closing};

/// After closing nothing is left to close, where entities and activities rise and parents are below their children.
pub fn closing_closes()
    ensures { (s : State) → AreBelowChildren s.entities → rises_in number_of s.entities ≡ true → rises_in (λ (row : Activity). row.number.0) s.activities ≡ true → IsClosed (closing s) }
{}
