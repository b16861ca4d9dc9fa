//! The states that restarts give.
ghost use Rattle.std.specs.Prelude.{◌≡◌, ◌<◌, ◌^◌, ℕ, List, Ok, length};
ghost use Rattle.script_types.specs.Program.{Program};
ghost use Rattle.deploy_json.specs.Checking.{read_as, reading_of};
ghost use Rattle.deploy_model.specs.Deployed.{Deployed};
ghost use Rattle.router_durable.specs.Facts.{initial_of};
ghost use Rattle.router_durable.specs.Recovery.{restart};
ghost use Rattle.router_laws_kept.specs.Kept.{CanBeKept, IsKeepable};
ghost use Rattle.router_laws_restarts.specs.Reached.{IsRestarted};
ghost use Rattle.router_laws_runs.specs.AsRead.{IsAsRead};
ghost use Rattle.router_state.specs.Initial.{initial};
ghost use Rattle.router_state.specs.State.{State};
ghost use Rattle.router_state.specs.Well.{IsWell};
ghost use Rattle.slee_descriptor.specs.declared.deployment.Deployment.{Deployment};
ghost use Rattle.slee_disk.specs.Sides.{Sides};

/// The state that a restart gives is what a legal history leaves of the one for which a snapshot stands, of the first one where it
/// is empty. With a deployment that was read it is well formed, and is as the laws of runs ask it: so these laws hold of each legal
/// history behind it. Where the states of the deployment can be kept, it is one of them, so a snapshot of it stands for it.
pub fn restarts_are_well_formed()
    ensures history { (d : Deployed) (p : Program) (bytes : List ℕ) (sides : Sides) (s : State) → restart (initial d p) bytes sides ≡ Ok s → IsRestarted d p s }
    ensures well { (bytes : List ℕ) (d : Deployment) (sides : Sides) (s : State) → length bytes < 2 ^ 63 → reading_of bytes ≡ Ok (read_as d) → restart (initial_of d.parts d.codes) bytes sides ≡ Ok s → IsWell s }
    ensures read { (bytes : List ℕ) (d : Deployment) (sides : Sides) (s : State) → reading_of bytes ≡ Ok (read_as d) → restart (initial_of d.parts d.codes) bytes sides ≡ Ok s → IsAsRead s.deployment s.program }
    ensures kept { (d : Deployed) (p : Program) (bytes : List ℕ) (sides : Sides) (s : State) → IsKeepable d p → restart (initial d p) bytes sides ≡ Ok s → CanBeKept s }
{}
