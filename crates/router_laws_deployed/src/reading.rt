//! What was read, with its program.
ghost use Rattle.std.specs.Prelude.{◌≡◌, true, ℕ, List, Some, Ok, is_some, slice_get};
ghost use Rattle.script_types.specs.Program.{BlockProgram};
ghost use Rattle.script_types.specs.ProgramOf.{kept_program};
ghost use Rattle.script_types.specs.Programs.{program_of};
ghost use Rattle.script_meaning.specs.Delivery.{handler_of};
ghost use Rattle.deploy_model.specs.Deployed.{handles};
ghost use Rattle.deploy_model.specs.Resolving.{deployed_of};
ghost use Rattle.slee_descriptor.specs.declared.deployment.Deployment.{Deployment};
ghost use Rattle.deploy_json.specs.Checking.{read_as, reading_of};
ghost use Rattle.deploy_json.specs.Reading.{parts_of};
ghost use Rattle.deploy_json.specs.Rows.{parts_row};
ghost use Rattle.deploy_json.specs.Scripts.{codes_in_rows};
ghost use Rattle.router_laws_suiting.specs.Declared.{IsProgrammed};

/// A deployment that was read has the parts of its bytes and the program of its scripts, with a handler for each event that a block
/// handles.
pub fn deployments_have_their_program()
    ensures parts { (bytes : List ℕ) (d : Deployment) → reading_of bytes ≡ Ok (read_as d) → parts_of bytes ≡ Ok (parts_row d.parts) }
    ensures program { (bytes : List ℕ) (d : Deployment) → reading_of bytes ≡ Ok (read_as d) → program_of (codes_in_rows (parts_row d.parts)) ≡ Ok (kept_program d.codes) }
    ensures handlers { (bytes : List ℕ) (d : Deployment) (n : ℕ) (event : List ℕ) → reading_of bytes ≡ Ok (read_as d) → handles (deployed_of d.parts) n event ≡ true → (block : BlockProgram) × (slice_get (kept_program d.codes) n ≡ Some block) × (is_some (handler_of event block) ≡ true) }
{}

/// The program of a deployment that was read is that of its checked scripts, and what these may name is declared as the deployment
/// has it: fields, relations with priorities in their range, attributes, each key with one type, events and services.
pub fn deployments_are_programmed()
    ensures { (bytes : List ℕ) (d : Deployment) → reading_of bytes ≡ Ok (read_as d) → IsProgrammed (deployed_of d.parts) (kept_program d.codes) }
{}
