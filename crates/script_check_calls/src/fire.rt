//! `fire`.
ghost use Rattle.std.specs.Prelude.{◌≡◌, ◌+◌, ◌<◌, IfOk, length, map};
ghost use Rattle.script_tree.specs.Tree.{tree_of, field_of};
ghost use Rattle.script_tree.specs.Tree as tree;
ghost use Rattle.script_tree.specs.Spelling.{spell_on_activities, spell_service};
ghost use Rattle.script_types.specs.ElaborationOfStatements.{on_activities_of};
ghost use Rattle.script_types.specs.TokenCounts.{tokens_in_tail};
ghost use Rattle.script_check_terms.specs.SettingOf.{setting_of};
ghost use Rattle.script_check_steps.specs.Made.{Makes};

use crate::fields::{are_all_given, check_fields};
use crate::lookup::{check_event, check_service};
use script_check_steps::{MadeStep, check_part};
use script_check_terms::{Locals, ScriptFault, Setting, check_not_on_remove, check_test};
use script_tree::{Expr, FieldValue, Literal};
use script_types::{CheckBad, OnActivities, Step};
use slee_value::{Kind, NoMemory, Text};
use std::alloc::Global;

/// A copy of the service's key.
fn copy_service(alloc: Global, service: &Option<Literal>) -> Result<Option<Text>, NoMemory>
    ensures { IfOk result (λ r. r ≡ service.now) }
{
    match service {
        None => Ok(None),
        Some(key) => Ok(Some(key.text().copy(alloc)?)),
    }
}

/// How many tokens `for TEXT` has, where it is there.
fn tokens_in_service(service: &Option<Literal>) -> usize
    ensures tail { result ≡ tokens_in_tail service.now }
    ensures spelled { result ≡ length (spell_service service.now) }
{
    match service {
        None => 0,
        Some(_) => 2,
    }
}

/// `fire TEXT on a for TEXT {NAME: e, ..};`, which `at` tokens stand before.
pub fn check_fire(
    setting: &Setting,
    scope: &Locals,
    at: usize,
    name: &Literal,
    x: &Expr,
    service: &Option<Literal>,
    fields: &[FieldValue],
) -> Result<MadeStep, ScriptFault>
    requires { at + length (spell_on_activities (tree.Fire name.now (tree_of x.now) service.now (map field_of fields.now))) < usize.MAX }
    ensures made { Makes result scope.now (on_activities_of (setting_of setting.now) scope.now at (tree.Fire name.now (tree_of x.now) service.now (map field_of fields.now))) }
    ensures tokens { IfOk result (λ r. r.tokens ≡ length (spell_on_activities (tree.Fire name.now (tree_of x.now) service.now (map field_of fields.now)))) }
{
    let event = check_event(setting, name, at + 1)?;
    let declared = &event.fields;
    let activity = check_part(setting, scope, Kind::Activity, at + 3, x)?;
    check_service(setting, at + 4 + activity.tokens, service)?;
    let for_service = tokens_in_service(service);
    let behind = at + 4 + activity.tokens + for_service;
    let given = check_fields(setting, scope, declared, behind, fields)?;
    let all = are_all_given(declared.as_slice(), fields, &given.given);
    check_test(CheckBad::Count, at + 1, all)?;
    check_not_on_remove(setting, at)?;
    let event = name.text().copy(setting.alloc)?;
    let service = copy_service(setting.alloc, service)?;
    let fire = OnActivities::Fire(event, activity.term, service, given.terms);
    Ok(MadeStep::new(
        Step::Activity(fire),
        3 + activity.tokens + for_service + given.tokens,
    ))
}
