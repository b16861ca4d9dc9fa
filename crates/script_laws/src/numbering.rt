//! The law that the names of checked scripts have their numbers.
ghost use Rattle.std.specs.Prelude.{◌≡◌, Ok};
ghost use Rattle.script_types.specs.Codes.{Codes};
ghost use Rattle.script_types.specs.Numbers.{IsNumberedProgram};
ghost use Rattle.script_types.specs.Program.{Program};
ghost use Rattle.script_types.specs.Programs.{program_of};

/// In the program of a deployment each name has its number among all names that scripts use.
pub fn checked_scripts_are_numbered()
    ensures { (all : Codes) (program : Program) → program_of all ≡ Ok program → IsNumberedProgram all.names program }
{}
