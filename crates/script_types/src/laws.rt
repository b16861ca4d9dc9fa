//! Laws over the definitions of when scripts are well typed.
ghost use Rattle.std.specs.Prelude.{◌≡◌, ◌++◌, ℕ, true, Some, Ok, slice_get};
ghost use Rattle.script_tree.specs.Tree.{Statements};
ghost use Rattle.script_types.specs.Codes.{Codes, Block};
ghost use Rattle.script_types.specs.RemoveScripts.{are_for_remove};
ghost use Rattle.script_types.specs.Scopes.{Scope};
ghost use Rattle.script_types.specs.Typing.{WellTyped, check_codes};
ghost use Rattle.script_types.specs.TypingExpressions.{Setting};
ghost use Rattle.script_types.specs.TypingStatements.{check_statements};

/// Where the check of all scripts in their order finds no fault, each script is well typed.
pub fn codes_without_fault_are_well_typed()
    ensures { (all : Codes) → check_codes all ≡ Ok tt → WellTyped all }
{}

/// And well-typed codes have no fault.
pub fn well_typed_codes_have_no_fault()
    ensures { (all : Codes) → WellTyped all → check_codes all ≡ Ok tt }
{}

/// Behind statements the variables before them are visible as they were, with new ones behind them.
pub fn variables_stay_in_place()
    ensures { (s : Setting) (scope next : Scope) (at : ℕ) (ys : Statements) → check_statements s scope at ys ≡ Ok next → (more : Scope) × (next ≡ scope ++ more) }
{}

/// A remove script of well-typed codes has only what a remove script may have.
pub fn remove_scripts_stay_inside()
    ensures { (all : Codes) (n : ℕ) (block : Block) (script : Statements) → WellTyped all → slice_get all.blocks n ≡ Some block → block.remove ≡ Some script → are_for_remove script ≡ true }
{}
