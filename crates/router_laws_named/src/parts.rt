//! The parts of a deployment.
ghost use Rattle.std.specs.Prelude.{◌≡◌, ◌≤◌, ◌^◌, None, length};
ghost use Rattle.deploy_model.specs.Resolving.{deployed_of};
ghost use Rattle.deploy_model.specs.Tables.{parts_fault};
ghost use Rattle.deploy_model.specs.declared.parts.Parts.{Parts};
ghost use Rattle.router_laws_named.specs.Names.{AreNames};
ghost use Rattle.router_laws_snapshots.specs.Named.{IsNamed};

/// In a deployment without fault whose names are names, whose tables rise by name and whose services are at most 2^32, keys and names
/// are texts, each leads back to what has it, and roots and relations lead to blocks.
pub fn deployments_without_fault_are_named()
    ensures { (parts : Parts) → parts_fault parts ≡ None → AreNames parts → length parts.services ≤ 2 ^ 32 → IsNamed (deployed_of parts) }
{}
