//! Statements of one expression alone, and those that say something or end the script.
ghost use Rattle.std.specs.Prelude.{◌≡◌, ◌+◌, ◌++◌, ◌<◌, IfOk, codes};
ghost use Rattle.script_tree.specs.Tree.{tree_of};
ghost use Rattle.script_tree.specs.Tree as tree;
ghost use Rattle.script_types.specs.declared.misuse.CheckBad.TheVariants as bad;
ghost use Rattle.script_types.specs.ElaborationOfStatements.{return_of, statement_made, verb_of};
ghost use Rattle.script_types.specs.ProgramOf.{step_of};
ghost use Rattle.script_types.specs.TokenCounts.{tokens_in};
ghost use Rattle.script_types.specs.TypingStatements.{check_handler};
ghost use Rattle.script_check_terms.specs.Answers.{Gives};
ghost use Rattle.script_check_terms.specs.declared.fault.ScriptFault.TheVariants as answers;
ghost use Rattle.script_check_terms.specs.SettingOf.{setting_of, role_of};
ghost use Rattle.script_check_steps.specs.Made.{Makes};

use crate::made::MadeStep;
use crate::part::{check_part, check_typed_part};
use script_check_terms::{Locals, Role, ScriptFault, Setting, check_not_on_remove, name_of};
use script_tree::{Expr, Identifier, Verb};
use script_types::{CheckBad, Misuse, OnActivities, OnTimers, Saying, Step};
use slee_value::{Kind, Name, NoMemory, Text};
use std::alloc::Global;

/// Something that isn't allowed in such a script.
fn misplaced(at: usize) -> ScriptFault
    ensures { result ≡ answers.At (record { at = at; kind = bad.Place }) }
{
    ScriptFault::At(Misuse {
        at,
        kind: CheckBad::Place,
    })
}

/// `suspend` is for handlers.
fn check_handler(role: &Role, at: usize) -> Result<(), ScriptFault>
    ensures { Gives (λ x. x) result (check_handler (role_of role.now) at) }
{
    match role {
        Role::OnEvent(_) => Ok(()),
        _ => Err(misplaced(at)),
    }
}

/// `return e;`, which is for methods that return, with that type.
fn check_return(
    setting: &Setting,
    scope: &Locals,
    at: usize,
    x: &Expr,
) -> Result<MadeStep, ScriptFault>
    requires { at + 1 + tokens_in (tree_of x.now) < usize.MAX }
    ensures made { Gives (λ r. step_of r.step) result (return_of (setting_of setting.now) scope.now at (setting_of setting.now).role (tree_of x.now)) }
    ensures tokens { IfOk result (λ r. r.tokens ≡ 1 + tokens_in (tree_of x.now)) }
{
    match setting.role {
        Role::InMethod(Some(kind)) => {
            let value = check_part(setting, scope, kind, at + 1, x)?;
            Ok(MadeStep::new(Step::Say(Saying::Return(value.term)), 1 + value.tokens))
        }
        _ => {
            check_typed_part(setting, scope, at + 1, x)?;
            Err(misplaced(at))
        }
    }
}

/// `emit e;` and its kin; `at` tokens stand before it.
pub fn check_verb(
    setting: &Setting,
    scope: &Locals,
    at: usize,
    verb: Verb,
    x: &Expr,
) -> Result<MadeStep, ScriptFault>
    requires { at + 1 + tokens_in (tree_of x.now) < usize.MAX }
    ensures made { Gives (λ r. step_of r.step) result (verb_of (setting_of setting.now) scope.now at verb (tree_of x.now)) }
    ensures tokens { IfOk result (λ r. r.tokens ≡ 1 + tokens_in (tree_of x.now)) }
{
    match verb {
        Verb::End => {
            let value = check_part(setting, scope, Kind::Activity, at + 1, x)?;
            check_not_on_remove(setting, at)?;
            Ok(MadeStep::new(
                Step::Activity(OnActivities::End(value.term)),
                1 + value.tokens,
            ))
        }
        Verb::Cancel => {
            let value = check_part(setting, scope, Kind::Timer, at + 1, x)?;
            check_not_on_remove(setting, at)?;
            Ok(MadeStep::new(Step::Timer(OnTimers::Cancel(value.term)), 1 + value.tokens))
        }
        Verb::Unbind => {
            let value = check_part(setting, scope, Kind::Text, at + 1, x)?;
            check_not_on_remove(setting, at)?;
            Ok(MadeStep::new(
                Step::Activity(OnActivities::Unbind(value.term)),
                1 + value.tokens,
            ))
        }
        Verb::Emit => {
            let value = check_part(setting, scope, Kind::Text, at + 1, x)?;
            Ok(MadeStep::new(Step::Say(Saying::Emit(value.term)), 1 + value.tokens))
        }
        Verb::Return => check_return(setting, scope, at, x),
        Verb::Throw => {
            let value = check_part(setting, scope, Kind::Text, at + 1, x)?;
            check_not_on_remove(setting, at)?;
            Ok(MadeStep::new(Step::Say(Saying::Throw(value.term)), 1 + value.tokens))
        }
        Verb::Suspend => {
            let value = check_part(setting, scope, Kind::Int, at + 1, x)?;
            check_handler(&setting.role, at)?;
            Ok(MadeStep::new(
                Step::Activity(OnActivities::Suspend(value.term)),
                1 + value.tokens,
            ))
        }
        Verb::Resume => {
            let value = check_part(setting, scope, Kind::Activity, at + 1, x)?;
            check_not_on_remove(setting, at)?;
            Ok(MadeStep::new(
                Step::Activity(OnActivities::Resume(value.term)),
                1 + value.tokens,
            ))
        }
    }
}

/// The name under which an amount is counted: the block's key and the parameter's name with a dot between.
fn usage_name(alloc: Global, block: &Name, name: &Identifier) -> Result<Text, NoMemory>
    ensures { IfOk result (λ t. t ≡ block.now ++ codes "." ++ name.now) }
{
    let name = name_of(alloc, name)?;
    let mut text = String::from_str(alloc, block.as_str())?;
    text.push_str(".")?;
    text.push_str(name.as_str())?;
    Ok(Text::from(text))
}

/// `usage NAME e;`
pub fn check_usage(
    setting: &Setting,
    scope: &Locals,
    at: usize,
    name: &Identifier,
    x: &Expr,
) -> Result<MadeStep, ScriptFault>
    requires { at + 2 + tokens_in (tree_of x.now) < usize.MAX }
    ensures made { Makes result scope.now (statement_made (setting_of setting.now) scope.now at (tree.Usage name.now (tree_of x.now))) }
    ensures tokens { IfOk result (λ r. r.tokens ≡ 2 + tokens_in (tree_of x.now)) }
{
    let amount = check_part(setting, scope, Kind::Int, at + 2, x)?;
    check_not_on_remove(setting, at)?;
    let name = usage_name(setting.alloc, &setting.block.key, name)?;
    Ok(MadeStep::new(
        Step::Say(Saying::Usage(name, amount.term)),
        2 + amount.tokens,
    ))
}

/// `rollback;`
pub fn check_rollback(setting: &Setting, scope: &Locals, at: usize) -> Result<MadeStep, ScriptFault>
    ensures made { Makes result scope.now (statement_made (setting_of setting.now) scope.now at tree.Rollback) }
    ensures tokens { IfOk result (λ r. r.tokens ≡ 1) }
{
    check_not_on_remove(setting, at)?;
    Ok(MadeStep::new(Step::Say(Saying::Rollback), 1))
}
