//! The arguments of a call, each against its parameter.
ghost use Rattle.std.specs.Prelude.{◌≡◌, ◌+◌, ◌-◌, ◌<◌, IfOk, map, option_copied, slice_get};
ghost use Rattle.script_tree.specs.Tree.{tree_of};
ghost use Rattle.script_types.specs.ElaborationOfStatements.{argument_of, arguments_of};
ghost use Rattle.script_types.specs.ProgramOf.{term_of};
ghost use Rattle.script_types.specs.TokenCounts.{tokens_in, tokens_in_arguments};
ghost use Rattle.script_types.specs.TypingStatements.{argument_fits};
ghost use Rattle.script_check_terms.specs.Answers.{Gives};
ghost use Rattle.script_check_terms.specs.SettingOf.{setting_of};
ghost use Rattle.script_check_calls.specs.Parts.{argument_made};

use script_check_steps::{Part, check_typed_part};
use script_check_terms::{Locals, ScriptFault, Setting, check_test, expr_as_kind, expr_serves};
use script_tree::Expr;
use script_types::{CheckBad, FieldCode, Term};
use slee_value::Kind;

/// The parameter of the argument in that place, where there is one.
fn parameter_at(parameters: &[FieldCode], place: usize) -> Option<&FieldCode>
    ensures { option_copied result ≡ slice_get parameters.now place }
{
    parameters.get(place)
}

/// Whether an argument of that type fits its parameter, where there is one.
fn argument_fits(parameter: Option<&FieldCode>, x: &Expr, found: Kind) -> bool
    ensures { result ≡ argument_fits (option_copied parameter.entry) (tree_of x.now) found }
{
    match parameter {
        None => true,
        Some(parameter) => expr_serves(x, found, parameter.kind),
    }
}

/// The term of an argument where its parameter's type is asked for.
fn argument_of(parameter: Option<&FieldCode>, x: &Expr, term: Term) -> Term
    ensures { term_of result ≡ argument_of (option_copied parameter.entry) (tree_of x.now) (term_of term) }
{
    match parameter {
        None => term,
        Some(parameter) => expr_as_kind(parameter.kind, x, term),
    }
}

/// One argument against its parameter; `at` tokens stand before it.
fn check_argument(
    setting: &Setting,
    scope: &Locals,
    parameter: Option<&FieldCode>,
    at: usize,
    x: &Expr,
) -> Result<Part, ScriptFault>
    ensures made { Gives (λ r. term_of r.term) result (argument_made (setting_of setting.now) scope.now (option_copied parameter.entry) at (tree_of x.now)) }
    ensures tokens { IfOk result (λ r. r.tokens ≡ tokens_in (tree_of x.now)) }
{
    let found = check_typed_part(setting, scope, at, x)?;
    check_test(
        CheckBad::Mismatch,
        at,
        argument_fits(parameter, x, found.kind),
    )?;
    Ok(Part {
        term: argument_of(parameter, x, found.term),
        tokens: found.tokens,
    })
}

/// The arguments of a call.
#[derive(Drop)]
pub struct Arguments {
    pub terms: Vec<Term>,
    /// With the commas between them.
    pub tokens: usize,
}

/// Each argument against its parameter; `at` tokens stand before the first.
pub fn check_arguments(
    setting: &Setting,
    scope: &Locals,
    parameters: &[FieldCode],
    at: usize,
    arguments: &[Expr],
) -> Result<Arguments, ScriptFault>
    requires { at + tokens_in_arguments (map tree_of arguments.now) < usize.MAX }
    ensures made { Gives (λ r. map term_of r.terms.items) result (arguments_of (setting_of setting.now) scope.now parameters.now at (map tree_of arguments.now)) }
    ensures tokens { IfOk result (λ r. r.tokens ≡ tokens_in_arguments (map tree_of arguments.now)) }
{
    let mut terms = Vec::new(setting.alloc);
    let mut here = at;
    'arguments: for (i, x) in arguments.iter().enumerate() {
        let part = check_argument(setting, scope, parameter_at(parameters, i), here, x)?;
        terms.push(part.term)?;
        here = here + part.tokens + 1;
    }
    Ok(Arguments {
        terms,
        tokens: without_last_comma(here - at),
    })
}

/// The number of tokens where a comma was counted behind each argument.
fn without_last_comma(tokens: usize) -> usize
    ensures { result ≡ tokens - 1 }
{
    tokens.saturating_sub(1)
}
