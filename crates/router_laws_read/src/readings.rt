//! Deployments that were read.
ghost use Rattle.std.specs.Prelude.{◌≡◌, ℕ, List, Ok};
ghost use Rattle.script_types.specs.ProgramOf.{kept_program};
ghost use Rattle.deploy_model.specs.Resolving.{deployed_of};
ghost use Rattle.slee_descriptor.specs.declared.deployment.Deployment.{Deployment};
ghost use Rattle.deploy_json.specs.Checking.{read_as, reading_of};
ghost use Rattle.router_laws_runs.specs.AsRead.{IsAsRead};
ghost use Rattle.router_laws_suiting.specs.Declared.{AreSpelled};

/// The constants of the scripts of every deployment that was read have spellings: a number has 64 bits with a sign, and a text is
/// UTF-8 whose length has 32.
pub fn deployments_have_spelled_constants()
    ensures { (bytes : List ℕ) (d : Deployment) → reading_of bytes ≡ Ok (read_as d) → AreSpelled (kept_program d.codes) }
{}

/// Every deployment that was read, with the program of its scripts, is as the laws of runs ask it: names of events are words and no
/// built-in's, what is masked are events, fields rise by name, priorities lie in their range, the program is that of its checked
/// scripts, whose constants have spellings, and each event that a block handles has its handler.
pub fn deployments_are_as_read()
    ensures { (bytes : List ℕ) (d : Deployment) → reading_of bytes ≡ Ok (read_as d) → IsAsRead (deployed_of d.parts) (kept_program d.codes) }
{}
