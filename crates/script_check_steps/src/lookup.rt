//! What the names in statements stand for; `at` tokens stand before the name.
ghost use Rattle.std.specs.Prelude.{◌≡◌};
ghost use Rattle.script_types.specs.Codes.{any_event, kind_in, relation_named};
ghost use Rattle.script_types.specs.Elaboration.{attribute_named};
ghost use Rattle.script_types.specs.TypingResult.{known};
ghost use Rattle.script_types.specs.declared.misuse.CheckBad.TheVariants as bad;
ghost use Rattle.script_check_terms.specs.declared.fault.ScriptFault.TheVariants as answers;
ghost use Rattle.script_check_terms.specs.Answers.{Gives};
ghost use Rattle.script_check_terms.specs.SettingOf.{setting_of};
ghost use Rattle.script_check_steps.specs.Made.{Knows};

use script_check_terms::{
    ScriptFault, Setting, attribute_named, check_known, check_test, is_event, kind_of_field,
    relation_named,
};
use script_tree::{Identifier, Literal};
use script_types::{AttributeCode, CheckBad, FieldCode, Misuse, NamedList, RelationCode};
use slee_value::Kind;

/// A name that stands for nothing.
fn unknown(at: usize) -> ScriptFault
    ensures { result ≡ answers.At (record { at = at; kind = bad.Name }) }
{
    ScriptFault::At(Misuse {
        at,
        kind: CheckBad::Name,
    })
}

/// The type of a field.
pub fn check_field(
    fields: &NamedList<FieldCode>,
    name: &Identifier,
    at: usize,
) -> Result<Kind, ScriptFault>
    ensures { Gives (λ k. k) result (known at (kind_in name.now fields.now)) }
{
    check_known(at, kind_of_field(fields, name.as_bytes()))
}

/// An attribute of activities.
pub fn check_attribute<'a>(
    setting: &Setting<'a>,
    name: &Identifier,
    at: usize,
) -> Result<&'a AttributeCode, ScriptFault>
    ensures { Gives (λ r. r.now) result (known at (attribute_named name.now (setting_of setting.now).block)) }
{
    match attribute_named(setting.block, name.as_bytes()) {
        Some(attribute) => Ok(attribute),
        None => Err(unknown(at)),
    }
}

/// A relation.
pub fn check_relation<'a>(
    setting: &Setting<'a>,
    name: &Identifier,
    at: usize,
) -> Result<&'a RelationCode, ScriptFault>
    ensures { Gives (λ r. r.now) result (known at (relation_named name.now (setting_of setting.now).block)) }
{
    match relation_named(setting.block, name.as_bytes()) {
        Some(relation) => Ok(relation),
        None => Err(unknown(at)),
    }
}

/// An event that is declared or built in.
pub fn check_any_event(setting: &Setting, name: &Literal, at: usize) -> Result<(), ScriptFault>
    ensures { Knows result (known at (any_event name.now (setting_of setting.now).codes)) }
{
    check_test(
        CheckBad::Name,
        at,
        is_event(setting.codes, name.text().as_bytes()),
    )
}
