//! The states that are reached.
ghost use Rattle.std.specs.Prelude.{◌≡◌, true, List};
ghost use Rattle.deploy_model.specs.Deployed.{Deployed};
ghost use Rattle.router_laws_sound.specs.Rooms.{HasRoom, IsDeployed};
ghost use Rattle.router_laws_steps.specs.Reads.{AreRead};
ghost use Rattle.router_laws_steps.specs.Steps.{CanStep};
ghost use Rattle.router_state.specs.Fits.{is_u64};
ghost use Rattle.router_state.specs.Initial.{initial};
ghost use Rattle.router_state.specs.State.{State};
ghost use Rattle.router_state.specs.Well.{IsSound, IsWell};
ghost use Rattle.router_steps.specs.Histories.{Legal, replay};
ghost use Rattle.router_steps.specs.Steps.{after};
ghost use Rattle.script_types.specs.Program.{Program};
ghost use Rattle.trace_history.specs.declared.choice.Choice.{Choice};
ghost use Rattle.trace_history.specs.declared.entry.Entry.{Entry};

/// A step of a choice that is enabled leaves a well-formed state.
pub fn steps_leave_well_formed_states()
    ensures { (s : State) (c : Choice) → IsSound s → IsDeployed s.deployment → CanStep s c → IsWell (after s c) }
{}

/// Every legal history leaves a well-formed state: over a well-formed base, and over the first state of a deployment.
pub fn histories_leave_well_formed_states()
    ensures base { (s : State) (h : List Entry) → IsWell s → IsDeployed s.deployment → Legal s h → AreRead h → HasRoom (replay s h) → is_u64 (replay s h).inputs ≡ true → IsWell (replay s h) }
    ensures first { (d : Deployed) (program : Program) (h : List Entry) → IsDeployed d → Legal (initial d program) h → AreRead h → HasRoom (replay (initial d program) h) → is_u64 (replay (initial d program) h).inputs ≡ true → IsWell (replay (initial d program) h) }
{}
