//! The constants of scripts, and of programs.
ghost use Rattle.std.specs.Prelude.{◌≡◌, Ok};
ghost use Rattle.std.specs.List.{AllByRecursion};
ghost use Rattle.std.specs.Str.{IsUtf8};
ghost use Rattle.script_tree.specs.Reading.{script_read};
ghost use Rattle.script_tree.specs.Tree.{Bytes, Statements};
ghost use Rattle.script_types.specs.Codes.{Codes};
ghost use Rattle.script_types.specs.Program.{Program};
ghost use Rattle.script_types.specs.Programs.{program_of};
ghost use Rattle.router_laws_spelled.specs.Written.{BlockWritten, StatementsSpelled};
ghost use Rattle.router_laws_suiting.specs.Declared.{AreSpelled};

/// The constants of a script that is read of a text in UTF-8 have spellings: a number has 64 bits with a sign, and a text is UTF-8
/// whose length has 32.
pub fn constants_of_scripts_have_spellings()
    ensures { (text : Bytes) (script : Statements) → IsUtf8 text → script_read text ≡ Ok script → StatementsSpelled script }
{}

/// The program of checked scripts has constants with spellings, where those of the scripts have, and the priorities of relations
/// have 64 bits.
pub fn constants_of_programs_have_spellings()
    ensures { (all : Codes) (program : Program) → program_of all ≡ Ok program → AllByRecursion BlockWritten all.blocks → AreSpelled program }
{}
