//! The states that a run reaches.
ghost use Rattle.std.specs.Prelude.{List};
ghost use Rattle.router_laws_runs.specs.AsRead.{IsAsRead};
ghost use Rattle.router_state.specs.State.{State};
ghost use Rattle.router_state.specs.Well.{IsWell};
ghost use Rattle.router_steps.specs.Histories.{Legal, replay};
ghost use Rattle.trace_history.specs.declared.entry.Entry.{Entry};

/// Every legal history over a well-formed state of a deployment that was read leaves a well-formed state of it.
pub fn legal_histories_stay_well_formed()
    ensures well { (s : State) (h : List Entry) → IsWell s → IsAsRead s.deployment s.program → Legal s h → IsWell (replay s h) }
    ensures read { (s : State) (h : List Entry) → IsAsRead s.deployment s.program → IsAsRead (replay s h).deployment (replay s h).program }
{}
