//! Statements without blocks, with the semicolon behind each; `at` tokens stand before it.
ghost use Rattle.std.specs.Prelude.{◌≡◌, ◌+◌, ◌≤◌, ◌<◌, IfOk, length};
ghost use Rattle.script_tree.specs.Tree.{tree_of, assigning_of, on_activities_of, on_entities_of, setting_of as timer_statement_of};
ghost use Rattle.script_tree.specs.Tree as tree;
ghost use Rattle.script_tree.specs.Spelling.{spell_on_activities, spell_on_entities};
ghost use Rattle.script_types.specs.ElaborationOfStatements.{statement_made, on_entities_of as entities_made, on_activities_of as activities_made};
ghost use Rattle.script_types.specs.TokenCounts.{tokens_in_statement};
ghost use Rattle.script_check_terms.specs.SettingOf.{setting_of};
ghost use Rattle.script_check_steps.specs.Made.{Makes};

use script_check_calls::{check_call, check_fire};
use script_check_steps::{
    MadeStep, check_assignment, check_attach, check_bind, check_create, check_detach, check_mask,
    check_null, check_priority, check_remove, check_rollback, check_timer, check_unmask,
    check_usage, check_verb,
};
use script_check_terms::{Locals, ScriptFault, Setting};
use script_tree::{ActivityStmt, Assignment, EntityStmt, Expr, Identifier, TimerStmt, Verb};

/// The same step with a token more.
fn ended(made: MadeStep) -> MadeStep
    requires { made.tokens < usize.MAX }
    ensures step { result.step ≡ made.step }
    ensures tokens { result.tokens ≡ made.tokens + 1 }
{
    MadeStep::new(made.step, made.tokens + 1)
}

/// An assignment.
pub fn check_assigning<'a>(
    setting: &Setting,
    scope: &mut Locals<'a>,
    at: usize,
    x: &'a Assignment,
) -> Result<MadeStep, ScriptFault>
    requires { at + tokens_in_statement (tree.Assign (assigning_of x.now)) ≤ usize.MAX }
    ensures made { Makes result scope.new (statement_made (setting_of setting.now) scope.old at (tree.Assign (assigning_of x.now))) }
    ensures tokens { IfOk result (λ r. r.tokens ≡ tokens_in_statement (tree.Assign (assigning_of x.now))) }
{
    let made = check_assignment(setting, scope, at, x)?;
    Ok(ended(made))
}

/// What stands before the semicolon of a statement on child entities.
fn check_entity<'a>(
    setting: &Setting,
    scope: &mut Locals<'a>,
    at: usize,
    x: &'a EntityStmt,
) -> Result<MadeStep, ScriptFault>
    requires { at + length (spell_on_entities (on_entities_of x.now)) < usize.MAX }
    ensures made { Makes result scope.new (entities_made (setting_of setting.now) scope.old at (on_entities_of x.now)) }
    ensures tokens { IfOk result (λ r. r.tokens ≡ length (spell_on_entities (on_entities_of x.now))) }
{
    match x {
        EntityStmt::Create(relation, child, priority) => {
            check_create(setting, scope, at, relation, child, priority)
        }
        EntityStmt::Remove(child) => check_remove(setting, scope, at, child),
        EntityStmt::Priority(child, x) => check_priority(setting, scope, at, child, x),
        EntityStmt::Call(child, name, arguments, kept) => {
            check_call(setting, scope, at, child, name, arguments, kept)
        }
    }
}

/// A statement on child entities.
pub fn check_on_entities<'a>(
    setting: &Setting,
    scope: &mut Locals<'a>,
    at: usize,
    x: &'a EntityStmt,
) -> Result<MadeStep, ScriptFault>
    requires { at + tokens_in_statement (tree.Entity (on_entities_of x.now)) ≤ usize.MAX }
    ensures made { Makes result scope.new (statement_made (setting_of setting.now) scope.old at (tree.Entity (on_entities_of x.now))) }
    ensures tokens { IfOk result (λ r. r.tokens ≡ tokens_in_statement (tree.Entity (on_entities_of x.now))) }
{
    let made = check_entity(setting, scope, at, x)?;
    Ok(ended(made))
}

/// What stands before the semicolon of a statement on activities.
fn check_activity<'a>(
    setting: &Setting,
    scope: &mut Locals<'a>,
    at: usize,
    x: &'a ActivityStmt,
) -> Result<MadeStep, ScriptFault>
    requires { at + length (spell_on_activities (on_activities_of x.now)) < usize.MAX }
    ensures made { Makes result scope.new (activities_made (setting_of setting.now) scope.old at (on_activities_of x.now)) }
    ensures tokens { IfOk result (λ r. r.tokens ≡ length (spell_on_activities (on_activities_of x.now))) }
{
    match x {
        ActivityStmt::Attach(who, x) => check_attach(setting, scope, at, who, x),
        ActivityStmt::Detach(who, x) => check_detach(setting, scope, at, who, x),
        ActivityStmt::Mask(event, x) => check_mask(setting, scope, at, event, x),
        ActivityStmt::Unmask(event, x) => check_unmask(setting, scope, at, event, x),
        ActivityStmt::Fire(event, x, service, fields) => {
            check_fire(setting, scope, at, event, x, service, fields)
        }
        ActivityStmt::Null(name) => check_null(setting, scope, at, name),
        ActivityStmt::Bind(x, y) => check_bind(setting, scope, at, x, y),
    }
}

/// A statement on activities.
pub fn check_on_activities<'a>(
    setting: &Setting,
    scope: &mut Locals<'a>,
    at: usize,
    x: &'a ActivityStmt,
) -> Result<MadeStep, ScriptFault>
    requires { at + tokens_in_statement (tree.Activity (on_activities_of x.now)) ≤ usize.MAX }
    ensures made { Makes result scope.new (statement_made (setting_of setting.now) scope.old at (tree.Activity (on_activities_of x.now))) }
    ensures tokens { IfOk result (λ r. r.tokens ≡ tokens_in_statement (tree.Activity (on_activities_of x.now))) }
{
    let made = check_activity(setting, scope, at, x)?;
    Ok(ended(made))
}

/// A timer that is set.
pub fn check_setting_timer<'a>(
    setting: &Setting,
    scope: &mut Locals<'a>,
    at: usize,
    x: &'a TimerStmt,
) -> Result<MadeStep, ScriptFault>
    requires { at + tokens_in_statement (tree.Timer (timer_statement_of x.now)) ≤ usize.MAX }
    ensures made { Makes result scope.new (statement_made (setting_of setting.now) scope.old at (tree.Timer (timer_statement_of x.now))) }
    ensures tokens { IfOk result (λ r. r.tokens ≡ tokens_in_statement (tree.Timer (timer_statement_of x.now))) }
{
    let made = check_timer(setting, scope, at, x)?;
    Ok(ended(made))
}

/// `emit e;` and its kin.
pub fn check_do(
    setting: &Setting,
    scope: &Locals,
    at: usize,
    verb: Verb,
    x: &Expr,
) -> Result<MadeStep, ScriptFault>
    requires { at + tokens_in_statement (tree.Do verb (tree_of x.now)) ≤ usize.MAX }
    ensures made { Makes result scope.now (statement_made (setting_of setting.now) scope.now at (tree.Do verb (tree_of x.now))) }
    ensures tokens { IfOk result (λ r. r.tokens ≡ tokens_in_statement (tree.Do verb (tree_of x.now))) }
{
    let made = check_verb(setting, scope, at, verb, x)?;
    Ok(ended(made))
}

/// `usage NAME e;`
pub fn check_counting(
    setting: &Setting,
    scope: &Locals,
    at: usize,
    name: &Identifier,
    x: &Expr,
) -> Result<MadeStep, ScriptFault>
    requires { at + tokens_in_statement (tree.Usage name.now (tree_of x.now)) ≤ usize.MAX }
    ensures made { Makes result scope.now (statement_made (setting_of setting.now) scope.now at (tree.Usage name.now (tree_of x.now))) }
    ensures tokens { IfOk result (λ r. r.tokens ≡ tokens_in_statement (tree.Usage name.now (tree_of x.now))) }
{
    let made = check_usage(setting, scope, at, name, x)?;
    Ok(ended(made))
}

/// `rollback;`
pub fn check_asking_rollback(
    setting: &Setting,
    scope: &Locals,
    at: usize,
) -> Result<MadeStep, ScriptFault>
    ensures made { Makes result scope.now (statement_made (setting_of setting.now) scope.now at tree.Rollback) }
    ensures tokens { IfOk result (λ r. r.tokens ≡ tokens_in_statement tree.Rollback) }
{
    let made = check_rollback(setting, scope, at)?;
    Ok(ended(made))
}
