//! `call`.
ghost use Rattle.std.specs.Prelude.{◌≡◌, ◌+◌, ◌<◌, IfOk, length, map};
ghost use Rattle.script_tree.specs.Tree.{tree_of};
ghost use Rattle.script_tree.specs.Tree as tree;
ghost use Rattle.script_tree.specs.Spelling.{spell_on_entities};
ghost use Rattle.script_types.specs.ElaborationOfStatements.{on_entities_of};
ghost use Rattle.script_types.specs.TokenCounts.{tokens_in_tail};
ghost use Rattle.script_types.specs.TypingStatements.{check_result};
ghost use Rattle.script_check_terms.specs.Answers.{Gives};
ghost use Rattle.script_check_terms.specs.SettingOf.{setting_of};
ghost use Rattle.script_check_steps.specs.Made.{Makes};

use crate::arguments::check_arguments;
use crate::lookup::check_method;
use script_check_steps::{MadeStep, add_value};
use script_check_terms::{
    Locals, ScriptFault, Setting, check_child, check_new, check_not_on_remove, check_test,
};
use script_tree::{Expr, Identifier};
use script_types::{Call, CheckBad, Misuse, Step};
use slee_value::Kind;

/// `as NAME`, the variable that the result becomes; behind a method without a result it isn't allowed, whatever the name.
fn check_result<'a>(
    scope: &mut Locals<'a>,
    kind: Option<Kind>,
    at: usize,
    variable: &'a Option<Identifier>,
) -> Result<(), ScriptFault>
    ensures { Gives (λ _. scope.new) result (check_result scope.old kind at variable.now) }
{
    let Some(name) = variable else {
        return Ok(());
    };
    let Some(kind) = kind else {
        return Err(ScriptFault::At(Misuse {
            at,
            kind: CheckBad::Place,
        }));
    };
    check_new(scope, name.as_bytes(), at)?;
    add_value(scope, name, kind)?;
    Ok(())
}

/// How many tokens `as NAME` has, where it is there.
fn tokens_in_result(variable: &Option<Identifier>) -> usize
    ensures { result ≡ tokens_in_tail variable.now }
{
    match variable {
        None => 0,
        Some(_) => 2,
    }
}

/// `call CHILD.METHOD(e, ..) as NAME;`, which `at` tokens stand before.
pub fn check_call<'a>(
    setting: &Setting,
    scope: &mut Locals<'a>,
    at: usize,
    child: &Identifier,
    name: &Identifier,
    arguments: &[Expr],
    variable: &'a Option<Identifier>,
) -> Result<MadeStep, ScriptFault>
    requires { at + length (spell_on_entities (tree.Call child.now name.now (map tree_of arguments.now) variable.now)) < usize.MAX }
    ensures made { Makes result scope.new (on_entities_of (setting_of setting.now) scope.old at (tree.Call child.now name.now (map tree_of arguments.now) variable.now)) }
    ensures tokens { IfOk result (λ r. r.tokens ≡ length (spell_on_entities (tree.Call child.now name.now (map tree_of arguments.now) variable.now))) }
{
    let found = check_child(scope, child.as_bytes(), at + 1)?;
    let called = check_method(setting, found.block, name, at + 3)?;
    let parameters = called.method.parameters.as_slice();
    let given = check_arguments(setting, scope, parameters, at + 5, arguments)?;
    check_test(CheckBad::Count, at + 3, arguments.len() == parameters.len())?;
    check_result(scope, called.method.result, at + 7 + given.tokens, variable)?;
    check_not_on_remove(setting, at)?;
    let call = Call {
        child: found.place,
        block: found.block,
        method: called.number,
        arguments: given.terms,
        keeps: variable.is_some(),
    };
    Ok(MadeStep::new(
        Step::Invoke(call),
        6 + given.tokens + tokens_in_result(variable),
    ))
}
