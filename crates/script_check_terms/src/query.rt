//! Functions of an expression.
ghost use Rattle.std.specs.Prelude.{◌≡◌, length};
ghost use Rattle.std.specs.List.{list_any};
ghost use Rattle.script_tree.specs.declared.symbol.Function.TheVariants as functions;
ghost use Rattle.script_tree.specs.declared.tree.Query.TheVariants as queries;
ghost use Rattle.script_tree.specs.Spelling.{behind_asked};
ghost use Rattle.script_tree.specs.Tree.{tree_of};
ghost use Rattle.script_types.specs.CodesOf.{codes_of};
ghost use Rattle.script_types.specs.Elaboration.{asking_of, operand_kind, question_of};
ghost use Rattle.script_types.specs.TokenCounts.{tokens_before};
ghost use Rattle.script_types.specs.TypingExpressions.{check_query_place, function_gives, is_query_known, query_takes, serves};
ghost use Rattle.script_check_terms.specs.Answers.{Gives};
ghost use Rattle.script_check_terms.specs.SettingOf.{setting_of};
ghost use Rattle.script_check_terms.specs.TypedTerms.{asking_in};

use crate::kind::expr_serves;
use crate::lookup::{attribute_named, is_event, is_table, kind_in_row, symbol_of};
use crate::{ScriptFault, Setting, check_known, check_not_on_remove};
use script_tree::{Expr, Function, Identifier, Query};
use script_types::{Codes, Question};
use slee_value::Kind;

/// What a function gives, and the question that it is.
#[derive(Drop)]
pub struct Asking {
    pub kind: Kind,
    pub question: Question,
}

/// Whether the event or table that is named before the operand is known.
pub fn is_query_known(codes: &Codes, query: &Query) -> bool
    ensures { result ≡ is_query_known (codes_of codes.now) query.now }
{
    match query {
        Query::Plain(_) | Query::Attribute(_) => true,
        Query::Masked(event) => is_event(codes, event.text().as_bytes()),
        Query::Profile(table, _) | Query::HasProfile(table) => is_table(codes, table.as_bytes()),
    }
}

/// How many tokens stand before the operand.
pub fn tokens_before(query: &Query) -> usize
    ensures { result ≡ tokens_before query.now }
{
    match query {
        Query::Plain(_) | Query::Attribute(_) => 2,
        Query::Masked(_) | Query::Profile(_, _) | Query::HasProfile(_) => 4,
    }
}

/// How many tokens stand behind the operand.
pub fn tokens_behind(query: &Query) -> usize
    ensures { result ≡ length (behind_asked query.now) }
{
    match query {
        Query::Attribute(_) | Query::Profile(_, _) => 3,
        Query::Plain(_) | Query::Masked(_) | Query::HasProfile(_) => 1,
    }
}

/// Whether the function takes this expression of that type.
pub fn takes(query: &Query, x: &Expr, found: Kind) -> bool
    ensures { result ≡ list_any (serves (tree_of x.now) found) (query_takes query.now) }
{
    match query {
        Query::Plain(Function::Text) => {
            expr_serves(x, found, Kind::Int) || expr_serves(x, found, Kind::Bool)
        }
        Query::Plain(Function::Active)
        | Query::Plain(Function::Attached)
        | Query::Masked(_)
        | Query::Attribute(_) => expr_serves(x, found, Kind::Activity),
        Query::Plain(Function::Len)
        | Query::Plain(Function::Bound)
        | Query::Plain(Function::Lookup)
        | Query::Profile(_, _)
        | Query::HasProfile(_) => expr_serves(x, found, Kind::Text),
        Query::Plain(Function::HasTimer) => expr_serves(x, found, Kind::Timer),
    }
}

/// The type that a function gives.
fn kind_given(function: Function) -> Kind
    ensures { result ≡ function_gives function }
{
    match function {
        Function::Text => Kind::Text,
        Function::Len => Kind::Int,
        Function::Active => Kind::Bool,
        Function::Attached => Kind::Bool,
        Function::Bound => Kind::Bool,
        Function::Lookup => Kind::Activity,
        Function::HasTimer => Kind::Bool,
    }
}

/// The question that a function is to a value of that type.
fn question_of(function: Function, found: Kind) -> Question
    ensures { result ≡ question_of function found }
{
    match function {
        Function::Text => question_of_text(found),
        Function::Len => Question::Len,
        Function::Active => Question::Active,
        Function::Attached => Question::Attached,
        Function::Bound => Question::Bound,
        Function::Lookup => Question::Lookup,
        Function::HasTimer => Question::HasTimer,
    }
}

fn question_of_text(found: Kind) -> Question
    ensures { result ≡ question_of functions.Text found }
{
    match found {
        Kind::Bool => Question::TextOfBool,
        Kind::Int | Kind::Text | Kind::Activity | Kind::Timer => Question::TextOfInt,
    }
}

/// A function with what it gives; `at` tokens stand before the name behind its operand.
pub fn check_asking(
    setting: &Setting,
    at: usize,
    found: Kind,
    query: &Query,
) -> Result<Asking, ScriptFault>
    ensures { Gives asking_in result (asking_of (setting_of setting.now) at found query.now) }
{
    match query {
        Query::Plain(function) => Ok(Asking {
            kind: kind_given(*function),
            question: question_of(*function, found),
        }),
        Query::Masked(event) => {
            let event = event.text().copy(setting.alloc)?;
            Ok(Asking {
                kind: Kind::Bool,
                question: Question::Masked(setting.codes.symbol(event)),
            })
        }
        Query::Attribute(name) => check_attribute(setting, at, found, name),
        Query::Profile(table, name) => check_profile(setting, at, found, table, name),
        Query::HasProfile(table) => Ok(Asking {
            kind: Kind::Bool,
            question: Question::HasProfile(symbol_of(setting, table)?),
        }),
    }
}

/// `attr(a, NAME)`
fn check_attribute(
    setting: &Setting,
    at: usize,
    found: Kind,
    name: &Identifier,
) -> Result<Asking, ScriptFault>
    ensures { Gives asking_in result (asking_of (setting_of setting.now) at found (queries.Attribute name.now)) }
{
    let attribute = check_known(at, attribute_named(setting.block, name.as_bytes()))?;
    let key = attribute.key.copy(setting.alloc)?;
    Ok(Asking {
        kind: attribute.kind,
        question: Question::Attribute(setting.codes.symbol(key), attribute.kind),
    })
}

/// `profile(NAME, e, NAME)`
fn check_profile(
    setting: &Setting,
    at: usize,
    found: Kind,
    table: &Identifier,
    name: &Identifier,
) -> Result<Asking, ScriptFault>
    ensures { Gives asking_in result (asking_of (setting_of setting.now) at found (queries.Profile table.now name.now)) }
{
    let kind = check_known(
        at,
        kind_in_row(setting.codes, table.as_bytes(), name.as_bytes()),
    )?;
    let table = symbol_of(setting, table)?;
    let name = symbol_of(setting, name)?;
    Ok(Asking {
        kind,
        question: Question::Profile(table, name, kind),
    })
}

/// Of functions a remove script has `text` and `len` alone.
pub fn check_query_place(setting: &Setting, at: usize, query: &Query) -> Result<(), ScriptFault>
    ensures { Gives (λ x. x) result (check_query_place (setting_of setting.now) at query.now) }
{
    match query {
        Query::Plain(Function::Text) => Ok(()),
        Query::Plain(Function::Len) => Ok(()),
        Query::Plain(Function::Active)
        | Query::Plain(Function::Attached)
        | Query::Plain(Function::Bound)
        | Query::Plain(Function::Lookup)
        | Query::Plain(Function::HasTimer)
        | Query::Masked(_)
        | Query::Attribute(_)
        | Query::Profile(_, _)
        | Query::HasProfile(_) => check_not_on_remove(setting, at),
    }
}

/// The type that a function takes: a timer where it takes one.
pub fn operand_kind(query: &Query, found: Kind) -> Kind
    ensures { result ≡ operand_kind query.now found }
{
    match query {
        Query::Plain(Function::HasTimer) => Kind::Timer,
        Query::Plain(Function::Text)
        | Query::Plain(Function::Len)
        | Query::Plain(Function::Active)
        | Query::Plain(Function::Attached)
        | Query::Plain(Function::Bound)
        | Query::Plain(Function::Lookup)
        | Query::Masked(_)
        | Query::Attribute(_)
        | Query::Profile(_, _)
        | Query::HasProfile(_) => found,
    }
}
