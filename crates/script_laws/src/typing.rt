//! Laws: what is well typed is what can be made into steps, and the first fault is the same.
ghost use Rattle.std.specs.Prelude.{◌≡◌, ℕ, Ok};
ghost use Rattle.script_tree.specs.Tree.{Expression, Statements};
ghost use Rattle.script_types.specs.Codes.{Codes};
ghost use Rattle.script_types.specs.Elaboration.{expression_of};
ghost use Rattle.script_types.specs.ElaborationOfStatements.{statements_made};
ghost use Rattle.script_types.specs.Program.{Program};
ghost use Rattle.script_types.specs.Programs.{program_of};
ghost use Rattle.script_types.specs.Scopes.{Scope};
ghost use Rattle.script_types.specs.Typing.{WellTyped, check_codes};
ghost use Rattle.script_types.specs.TypingExpressions.{Setting, check_expression};
ghost use Rattle.script_types.specs.TypingStatements.{check_statements};
ghost use Rattle.script_laws.specs.Forgetting.{forget};

/// An expression has the type of the term that it is made into, or both have the same first fault.
pub fn expressions_have_the_type_of_their_term()
    ensures { (s : Setting) (scope : Scope) (at : ℕ) (x : Expression) → check_expression s scope at x ≡ forget (λ one. one.kind) (expression_of s scope at x) }
{}

/// Behind a script those variables are visible that are visible behind its steps, or both have the same first fault.
pub fn scripts_have_the_scope_of_their_steps()
    ensures { (s : Setting) (scope : Scope) (at : ℕ) (ys : Statements) → check_statements s scope at ys ≡ forget (λ made. made.scope) (statements_made s scope at ys) }
{}

/// The check of all scripts in their order finds the fault that keeps them from being a program, in the same script, or none.
pub fn programs_have_the_first_fault()
    ensures { (all : Codes) → check_codes all ≡ forget (λ program. tt) (program_of all) }
{}

/// Codes that have a program are well typed.
pub fn programs_are_for_well_typed_codes()
    ensures { (all : Codes) (program : Program) → program_of all ≡ Ok program → WellTyped all }
{}

/// Well-typed codes have a program.
pub fn well_typed_codes_have_a_program()
    ensures { (all : Codes) → WellTyped all → (program : Program) × (program_of all ≡ Ok program) }
{}
