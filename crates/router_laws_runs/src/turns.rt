//! The effects of a run's deliveries.
ghost use Rattle.std.specs.Prelude.{List};
ghost use Rattle.router_laws_runs.specs.Applied.{EachApplies};
ghost use Rattle.router_laws_runs.specs.AsRead.{IsAsRead};
ghost use Rattle.router_state.specs.State.{State};
ghost use Rattle.router_state.specs.Well.{IsWell};
ghost use Rattle.router_steps.specs.Histories.{Legal};
ghost use Rattle.trace_history.specs.declared.entry.Entry.{Entry};

/// In every legal history each effect of each delivery applies at its turn: what it refers to is there, and none is left out.
#[tactic(auto, using(crate::proofs::Applied::legal_applies))]
pub fn effects_of_runs_apply()
    ensures { (s : State) (h : List Entry) → IsWell s → IsAsRead s.deployment s.program → Legal s h → EachApplies s h }
{}
