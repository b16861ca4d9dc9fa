//! Expressions as parts of statements, with the number of their tokens.
ghost use Rattle.std.specs.Prelude.{◌≡◌, ◌+◌, ◌<◌, IfOk};
ghost use Rattle.script_tree.specs.Tree.{tree_of};
ghost use Rattle.script_types.specs.Elaboration.{asked_of, expression_of};
ghost use Rattle.script_types.specs.ProgramOf.{term_of};
ghost use Rattle.script_types.specs.TokenCounts.{tokens_in};
ghost use Rattle.script_check_terms.specs.Answers.{Gives};
ghost use Rattle.script_check_terms.specs.SettingOf.{setting_of};

use script_check_terms::{Locals, ScriptFault, Setting, check_asked, check_expression};
use script_tree::Expr;
use script_types::Term;
use slee_value::Kind;

/// An expression where one type is asked for.
#[derive(Drop)]
pub struct Part {
    pub term: Term,
    pub tokens: usize,
}

/// An expression of any type.
#[derive(Drop)]
pub struct TypedPart {
    pub kind: Kind,
    pub term: Term,
    pub tokens: usize,
}

/// The term of an expression where that type is asked for.
pub fn check_part(
    setting: &Setting,
    scope: &Locals,
    asked: Kind,
    at: usize,
    x: &Expr,
) -> Result<Part, ScriptFault>
    ensures made { Gives (λ r. term_of r.term) result (asked_of (setting_of setting.now) scope.now asked at (tree_of x.now)) }
    ensures tokens { IfOk result (λ r. r.tokens ≡ tokens_in (tree_of x.now)) }
{
    let found = check_asked(setting, scope, asked, at, x)?;
    Ok(Part {
        term: found.term,
        tokens: found.end - at,
    })
}

/// The type and the term of an expression.
pub fn check_typed_part(
    setting: &Setting,
    scope: &Locals,
    at: usize,
    x: &Expr,
) -> Result<TypedPart, ScriptFault>
    ensures made { Gives (λ r. record { kind = r.kind; term = term_of r.term }) result (expression_of (setting_of setting.now) scope.now at (tree_of x.now)) }
    ensures tokens { IfOk result (λ r. r.tokens ≡ tokens_in (tree_of x.now)) }
{
    let found = check_expression(setting, scope, at, x)?;
    Ok(TypedPart {
        kind: found.kind,
        term: found.term,
        tokens: found.end - at,
    })
}
