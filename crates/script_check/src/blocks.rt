//! Statements one behind another, and statements with blocks; `at` tokens stand before each.
ghost use Rattle.std.specs.Prelude.{◌≡◌, ◌+◌, ◌≤◌, IfOk, OnOk};
ghost use Rattle.script_tree.specs.Tree.{tree_of, statement_of, statements_of};
ghost use Rattle.script_tree.specs.Tree as tree;
ghost use Rattle.script_types.specs.ElaborationOfStatements.{statement_made, statements_made};
ghost use Rattle.script_types.specs.ProgramOf.{steps_of};
ghost use Rattle.script_types.specs.TokenCounts.{tokens_in_statement, tokens_in_statements};
ghost use Rattle.script_check_terms.specs.SettingOf.{setting_of};
ghost use Rattle.script_check_steps.specs.Made.{Makes};
ghost use Rattle.script_check.specs.Blocks.{MakesAll, MakesSteps};

use crate::loops::add_loop_variable;
use crate::plain::{
    check_asking_rollback, check_assigning, check_counting, check_do, check_on_activities,
    check_on_entities, check_setting_timer,
};
use script_check_steps::{MadeStep, check_part};
use script_check_terms::{Locals, ScriptFault, Setting, check_new, check_not_on_remove};
use script_tree::{Expr, Identifier, Over, Stmt};
use script_types::Step;
use slee_value::Kind;

/// Steps one behind another.
#[derive(Drop)]
pub struct MadeSteps {
    pub steps: Vec<Step>,
    /// How many tokens the statements have.
    pub tokens: usize,
}

/// A statement.
#[cycle(blocks)]
fn check_statement<'a>(
    setting: &Setting,
    scope: &mut Locals<'a>,
    at: usize,
    x: &'a Stmt,
) -> Result<MadeStep, ScriptFault>
    requires { at + tokens_in_statement (statement_of x.now) ≤ usize.MAX }
    ensures made { Makes result scope.new (statement_made (setting_of setting.now) scope.old at (statement_of x.now)) }
    ensures tokens { IfOk result (λ r. r.tokens ≡ tokens_in_statement (statement_of x.now)) }
{
    match x {
        Stmt::Assign(x) => check_assigning(setting, scope, at, x),
        Stmt::Entity(x) => check_on_entities(setting, scope, at, x),
        Stmt::Activity(x) => check_on_activities(setting, scope, at, x),
        Stmt::Timer(x) => check_setting_timer(setting, scope, at, x),
        Stmt::Do(verb, x) => check_do(setting, scope, at, *verb, x),
        Stmt::Usage(name, x) => check_counting(setting, scope, at, name, x),
        Stmt::Rollback => check_asking_rollback(setting, scope, at),
        Stmt::If(x, body) => check_if(setting, scope, at, body, x),
        Stmt::IfElse(x, body, other) => check_if_else(setting, scope, at, body, other, x),
        Stmt::While(x, body) => check_while(setting, scope, at, body, x),
        Stmt::For(name, over, body) => check_for(setting, scope, at, body, name, over),
    }
}

/// Statements one behind another.
#[cycle(blocks)]
#[tactic(auto, using(crate::proofs::Tokens::tokens_from))]
pub fn check_statements<'a>(
    setting: &Setting,
    scope: &mut Locals<'a>,
    at: usize,
    body: &'a [Stmt],
) -> Result<MadeSteps, ScriptFault>
    requires { at + tokens_in_statements (statements_of body.now) ≤ usize.MAX }
    ensures made { MakesAll result scope.new (statements_made (setting_of setting.now) scope.old at (statements_of body.now)) }
    ensures tokens { IfOk result (λ r. r.tokens ≡ tokens_in_statements (statements_of body.now)) }
{
    let mut steps = Vec::with_capacity(setting.alloc, body.len())?;
    let mut here = at;
    'rest: for x in body {
        let made = check_statement(setting, scope, here, x)?;
        steps.push(made.step)?;
        here += made.tokens;
    }
    Ok(MadeSteps {
        steps,
        tokens: here - at,
    })
}

/// A block, whose variables are forgotten behind it.
#[cycle(blocks)]
#[tactic(auto, using(crate::proofs::BlockLemmas::cut_back))]
fn check_block<'a>(
    setting: &Setting,
    scope: &mut Locals<'a>,
    at: usize,
    body: &'a [Stmt],
) -> Result<MadeSteps, ScriptFault>
    requires { at + tokens_in_statements (statements_of body.now) ≤ usize.MAX }
    ensures made { MakesSteps (λ r. steps_of r.steps.items) result (statements_made (setting_of setting.now) scope.old at (statements_of body.now)) }
    ensures scope { OnOk result (scope.new ≡ scope.old) }
    ensures tokens { IfOk result (λ r. r.tokens ≡ tokens_in_statements (statements_of body.now)) }
{
    let outer = scope.len();
    let made = check_statements(setting, scope, at, body)?;
    scope.truncate(outer);
    Ok(made)
}

/// `if e { .. }`
#[cycle(blocks)]
#[tactic(auto, using(crate::proofs::Tokens::tokens_if, script_types::proofs::ProgramRows::if_step))]
fn check_if<'a>(
    setting: &Setting,
    scope: &mut Locals<'a>,
    at: usize,
    body: &'a [Stmt],
    x: &Expr,
) -> Result<MadeStep, ScriptFault>
    requires { at + tokens_in_statement (tree.If (tree_of x.now) (statements_of body.now)) ≤ usize.MAX }
    ensures made { Makes result scope.new (statement_made (setting_of setting.now) scope.old at (tree.If (tree_of x.now) (statements_of body.now))) }
    ensures tokens { IfOk result (λ r. r.tokens ≡ tokens_in_statement (tree.If (tree_of x.now) (statements_of body.now))) }
{
    let test = check_part(setting, scope, Kind::Bool, at + 1, x)?;
    let inner = check_block(setting, scope, at + 2 + test.tokens, body)?;
    Ok(MadeStep::new(
        Step::If(test.term, inner.steps, Vec::new(setting.alloc)),
        3 + test.tokens + inner.tokens,
    ))
}

/// `if e { .. } else { .. }`
#[cycle(blocks)]
#[tactic(auto, using(crate::proofs::Tokens::tokens_if_else, script_types::proofs::ProgramRows::if_step))]
fn check_if_else<'a>(
    setting: &Setting,
    scope: &mut Locals<'a>,
    at: usize,
    body: &'a [Stmt],
    other: &'a [Stmt],
    x: &Expr,
) -> Result<MadeStep, ScriptFault>
    requires { at + tokens_in_statement (tree.IfElse (tree_of x.now) (statements_of body.now) (statements_of other.now)) ≤ usize.MAX }
    ensures made { Makes result scope.new (statement_made (setting_of setting.now) scope.old at (tree.IfElse (tree_of x.now) (statements_of body.now) (statements_of other.now))) }
    ensures tokens { IfOk result (λ r. r.tokens ≡ tokens_in_statement (tree.IfElse (tree_of x.now) (statements_of body.now) (statements_of other.now))) }
{
    let test = check_part(setting, scope, Kind::Bool, at + 1, x)?;
    let inner = check_block(setting, scope, at + 2 + test.tokens, body)?;
    let behind = at + 5 + test.tokens + inner.tokens;
    let second = check_block(setting, scope, behind, other)?;
    Ok(MadeStep::new(
        Step::If(test.term, inner.steps, second.steps),
        6 + test.tokens + inner.tokens + second.tokens,
    ))
}

/// `while e { .. }`
#[cycle(blocks)]
#[tactic(auto, using(crate::proofs::Tokens::tokens_while, script_types::proofs::ProgramRows::while_step))]
fn check_while<'a>(
    setting: &Setting,
    scope: &mut Locals<'a>,
    at: usize,
    body: &'a [Stmt],
    x: &Expr,
) -> Result<MadeStep, ScriptFault>
    requires { at + tokens_in_statement (tree.While (tree_of x.now) (statements_of body.now)) ≤ usize.MAX }
    ensures made { Makes result scope.new (statement_made (setting_of setting.now) scope.old at (tree.While (tree_of x.now) (statements_of body.now))) }
    ensures tokens { IfOk result (λ r. r.tokens ≡ tokens_in_statement (tree.While (tree_of x.now) (statements_of body.now))) }
{
    let test = check_part(setting, scope, Kind::Bool, at + 1, x)?;
    let inner = check_block(setting, scope, at + 2 + test.tokens, body)?;
    Ok(MadeStep::new(
        Step::While(test.term, inner.steps),
        3 + test.tokens + inner.tokens,
    ))
}

/// `for NAME in .. { .. }`
#[cycle(blocks)]
#[tactic(auto, using(crate::proofs::Tokens::tokens_for))]
fn check_for<'a>(
    setting: &Setting,
    scope: &mut Locals<'a>,
    at: usize,
    body: &'a [Stmt],
    name: &'a Identifier,
    over: &Over,
) -> Result<MadeStep, ScriptFault>
    requires { at + tokens_in_statement (tree.For name.now over.now (statements_of body.now)) ≤ usize.MAX }
    ensures made { Makes result scope.new (statement_made (setting_of setting.now) scope.old at (tree.For name.now over.now (statements_of body.now))) }
    ensures tokens { IfOk result (λ r. r.tokens ≡ tokens_in_statement (tree.For name.now over.now (statements_of body.now))) }
{
    check_new(scope, name.as_bytes(), at + 1)?;
    let visible = scope.len();
    let range = add_loop_variable(setting, scope, name, at + 3, over)?;
    let inner = check_block(setting, scope, at + 5, body)?;
    scope.truncate(visible);
    check_not_on_remove(setting, at)?;
    Ok(MadeStep::new(Step::For(range, inner.steps), 6 + inner.tokens))
}
