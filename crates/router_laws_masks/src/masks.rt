//! The events that are masked where an entity is attached.
ghost use Rattle.std.specs.Prelude.{◌≡◌, ℕ, List, Some, Ok, map, slice_get};
ghost use Rattle.script_tree.specs.Tree.{Bytes};
ghost use Rattle.script_types.specs.Program.{BlockProgram};
ghost use Rattle.script_types.specs.declared.symbol.Symbol.{Symbol};
ghost use Rattle.script_types.specs.ProgramOf.{kept_program};
ghost use Rattle.deploy_json.specs.Checking.{read_as, reading_of};
ghost use Rattle.deploy_model.specs.Resolving.{deployed_of};
ghost use Rattle.slee_descriptor.specs.declared.deployment.Deployment.{Deployment};
ghost use Rattle.router_laws_written.specs.Held.{BeginsWith};

/// In every deployment that was read, the events with which a block's scripts reckon as masked where an entity is attached are those
/// that the router masks there.
pub fn programs_mask_as_deployed()
    ensures { (bytes : List ℕ) (d : Deployment) (n : ℕ) (block : BlockProgram) (event : List ℕ) → reading_of bytes ≡ Ok (read_as d) → slice_get (kept_program d.codes) n ≡ Some block → BeginsWith (deployed_of d.parts) event (map (λ (x : Symbol Bytes). x.name) block.masks) n }
{}
