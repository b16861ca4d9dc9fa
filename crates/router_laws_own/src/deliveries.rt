//! What the deliveries of a legal history read.
ghost use Rattle.std.specs.Prelude.{List};
ghost use Rattle.router_laws_own.specs.Deliveries.{EachSees};
ghost use Rattle.router_laws_runs.specs.AsRead.{IsAsRead};
ghost use Rattle.router_state.specs.State.{State};
ghost use Rattle.router_state.specs.Well.{IsWell};
ghost use Rattle.router_steps.specs.Histories.{Legal};
ghost use Rattle.trace_history.specs.declared.entry.Entry.{Entry};

/// In every legal history over a well-formed state of a deployment that was read, what each delivery reads at any key after effects of
/// its own is what is there once these are done: a transaction sees its own writes.
pub fn deliveries_read_what_they_wrote()
    ensures { (s : State) (h : List Entry) → IsWell s → IsAsRead s.deployment s.program → Legal s h → EachSees s h }
{}
