//! Deployments that were read.
ghost use Rattle.std.specs.Prelude.{◌≡◌, ◌<◌, ◌^◌, ℕ, List, Ok, length};
ghost use Rattle.script_types.specs.ProgramOf.{kept_program};
ghost use Rattle.deploy_model.specs.Resolving.{deployed_of};
ghost use Rattle.deploy_model.specs.declared.parts.Parts.{Parts};
ghost use Rattle.slee_descriptor.specs.declared.deployment.Deployment.{Deployment};
ghost use Rattle.deploy_json.specs.Checking.{read_as, reading_of};
ghost use Rattle.deploy_json.specs.Reading.{parts_of};
ghost use Rattle.deploy_json.specs.Rows.{parts_row};
ghost use Rattle.router_laws_kept.specs.Kept.{IsKeepable};
ghost use Rattle.router_laws_named.specs.Names.{AreNames};
ghost use Rattle.router_laws_snapshots.specs.Named.{IsNamed};

/// In every deployment that was read the names are names, and tables rise by theirs. So the names in a snapshot lead back to what
/// they stand for, where its bytes are fewer than 2^32.
pub fn deployments_have_names()
    ensures names { (bytes : List ℕ) (parts : Parts) → parts_of bytes ≡ Ok (parts_row parts) → AreNames parts }
    ensures lead { (bytes : List ℕ) (d : Deployment) → length bytes < 2 ^ 32 → reading_of bytes ≡ Ok (read_as d) → IsNamed (deployed_of d.parts) }
{}

/// The states of every deployment that was read, of fewer than 2^32 bytes, can be kept.
pub fn deployments_can_be_kept()
    ensures { (bytes : List ℕ) (d : Deployment) → length bytes < 2 ^ 32 → reading_of bytes ≡ Ok (read_as d) → IsKeepable (deployed_of d.parts) (kept_program d.codes) }
{}
