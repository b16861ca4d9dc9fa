//! A law over what statements are made into.
ghost use Rattle.std.specs.Prelude.{◌≡◌, ◌++◌, ℕ, Ok};
ghost use Rattle.script_tree.specs.Tree.{Statements};
ghost use Rattle.script_types.specs.ElaborationOfStatements.{MadeAll, statements_made};
ghost use Rattle.script_types.specs.Scopes.{Scope};
ghost use Rattle.script_types.specs.TypingExpressions.{Setting};

/// Behind statements the variables before them are in their places, with new ones behind them. So a block forgets its own by
/// cutting the scope to its length.
pub fn variables_before_statements_stay()
    ensures { (s : Setting) (scope : Scope) (at : ℕ) (ys : Statements) (made : MadeAll) → statements_made s scope at ys ≡ Ok made → (more : Scope) × (made.scope ≡ scope ++ more) }
{}
