//! Runs that go on from a restart.
ghost use Rattle.std.specs.Prelude.{◌≡◌, ◌<◌, ◌^◌, ℕ, List, Ok, length};
ghost use Rattle.deploy_json.specs.Checking.{read_as, reading_of};
ghost use Rattle.router_durable.specs.Facts.{initial_of};
ghost use Rattle.router_durable.specs.Recovery.{restart};
ghost use Rattle.router_laws_restarts.specs.Orderly.{IsWellOrdered};
ghost use Rattle.router_state.specs.State.{State};
ghost use Rattle.router_steps.specs.Histories.{Legal};
ghost use Rattle.slee_descriptor.specs.declared.deployment.Deployment.{Deployment};
ghost use Rattle.slee_disk.specs.Sides.{Sides};
ghost use Rattle.trace_history.specs.declared.entry.Entry.{Entry};

/// Where two sides stand for a state of a deployment that was read, every legal history that goes on from it keeps all laws of
/// runs: events in order, at most once, by priority, ends last, what is suspended left alone, effects applied, states well formed.
pub fn runs_over_restarts_keep_the_laws()
    ensures { (bytes : List ℕ) (d : Deployment) (sides : Sides) (s : State) (h : List Entry) → length bytes < 2 ^ 63 → reading_of bytes ≡ Ok (read_as d) → restart (initial_of d.parts d.codes) bytes sides ≡ Ok s → Legal s h → IsWellOrdered s h }
{}
