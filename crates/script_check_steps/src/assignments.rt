//! Assignments.
ghost use Rattle.std.specs.Prelude.{◌≡◌, ◌+◌, ◌<◌, IfOk, length};
ghost use Rattle.script_tree.specs.Tree.{tree_of, assigning_of as assignment_of};
ghost use Rattle.script_tree.specs.Tree as tree;
ghost use Rattle.script_tree.specs.Spelling.{spell_assigning};
ghost use Rattle.script_types.specs.ElaborationOfStatements.{assigning_of};
ghost use Rattle.script_check_terms.specs.SettingOf.{setting_of};
ghost use Rattle.script_check_steps.specs.Made.{Makes};

use crate::lookup::{check_attribute, check_field};
use crate::made::MadeStep;
use crate::new_variable::add_value;
use crate::part::{check_part, check_typed_part};
use script_check_terms::{
    Locals, ScriptFault, Setting, check_new, check_not_on_remove, check_value, symbol_of,
};
use script_tree::{Assignment, Expr, Identifier};
use script_types::{Assigning, Step};
use slee_value::Kind;

/// A statement that gives a value to something; `at` tokens stand before it.
pub fn check_assignment<'a>(
    setting: &Setting,
    scope: &mut Locals<'a>,
    at: usize,
    x: &'a Assignment,
) -> Result<MadeStep, ScriptFault>
    requires { at + length (spell_assigning (assignment_of x.now)) < usize.MAX }
    ensures made { Makes result scope.new (assigning_of (setting_of setting.now) scope.old at (assignment_of x.now)) }
    ensures tokens { IfOk result (λ r. r.tokens ≡ length (spell_assigning (assignment_of x.now))) }
{
    match x {
        Assignment::New(name, x) => {
            check_new(scope, name.as_bytes(), at + 1)?;
            let value = check_typed_part(setting, scope, at + 3, x)?;
            add_value(scope, name, value.kind)?;
            Ok(MadeStep::new(Step::Assign(Assigning::New(value.term)), 3 + value.tokens))
        }
        Assignment::Variable(name, x) => {
            let variable = check_value(scope, name.as_bytes(), at)?;
            let value = check_part(setting, scope, variable.kind, at + 2, x)?;
            Ok(MadeStep::new(
                Step::Assign(Assigning::Variable(variable.place, value.term)),
                2 + value.tokens,
            ))
        }
        Assignment::Field(name, x) => check_set_field(setting, scope, at, name, x),
        Assignment::Attribute(x, name, y) => check_set_attribute(setting, scope, at, x, name, y),
    }
}

/// `self.NAME = e;`
fn check_set_field(
    setting: &Setting,
    scope: &Locals,
    at: usize,
    name: &Identifier,
    x: &Expr,
) -> Result<MadeStep, ScriptFault>
    requires { at + length (spell_assigning (tree.Field name.now (tree_of x.now))) < usize.MAX }
    ensures made { Makes result scope.now (assigning_of (setting_of setting.now) scope.now at (tree.Field name.now (tree_of x.now))) }
    ensures tokens { IfOk result (λ r. r.tokens ≡ length (spell_assigning (tree.Field name.now (tree_of x.now)))) }
{
    let kind = check_field(&setting.block.fields, name, at + 2)?;
    let value = check_part(setting, scope, kind, at + 4, x)?;
    check_not_on_remove(setting, at)?;
    let name = symbol_of(setting, name)?;
    Ok(MadeStep::new(
        Step::Assign(Assigning::Field(name, value.term)),
        4 + value.tokens,
    ))
}

/// `attr(a, NAME) = e;`
fn check_set_attribute(
    setting: &Setting,
    scope: &Locals,
    at: usize,
    x: &Expr,
    name: &Identifier,
    y: &Expr,
) -> Result<MadeStep, ScriptFault>
    requires { at + length (spell_assigning (tree.Attribute (tree_of x.now) name.now (tree_of y.now))) < usize.MAX }
    ensures made { Makes result scope.now (assigning_of (setting_of setting.now) scope.now at (tree.Attribute (tree_of x.now) name.now (tree_of y.now))) }
    ensures tokens { IfOk result (λ r. r.tokens ≡ length (spell_assigning (tree.Attribute (tree_of x.now) name.now (tree_of y.now)))) }
{
    let activity = check_part(setting, scope, Kind::Activity, at + 2, x)?;
    let attribute = check_attribute(setting, name, at + 3 + activity.tokens)?;
    let value = check_part(setting, scope, attribute.kind, at + 6 + activity.tokens, y)?;
    check_not_on_remove(setting, at)?;
    let key = setting.codes.symbol(attribute.key.copy(setting.alloc)?);
    Ok(MadeStep::new(
        Step::Assign(Assigning::Attribute(activity.term, key, value.term)),
        6 + activity.tokens + value.tokens,
    ))
}
