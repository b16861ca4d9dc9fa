//! The fields of an event that is fired.
ghost use Rattle.std.specs.Prelude.{◌≡◌, ◌+◌, ◌<◌, ◌≤◌, ◌==◌, [], IfOk, if◌then◌else◌, length, map};
ghost use Rattle.script_tree.specs.Tree.{tree_of, field_of};
ghost use Rattle.script_tree.specs.Spelling.{spell_fields};
ghost use Rattle.script_types.specs.Codes.{kind_in};
ghost use Rattle.script_types.specs.ElaborationOfStatements.{fields_of};
ghost use Rattle.script_types.specs.ProgramOf.{field_term_of};
ghost use Rattle.script_types.specs.TokenCounts.{tokens_in};
ghost use Rattle.script_types.specs.TypingStatements.{are_all_given};
ghost use Rattle.script_check_terms.specs.Answers.{Gives};
ghost use Rattle.script_check_terms.specs.SettingOf.{setting_of};
ghost use Rattle.script_check_calls.specs.Parts.{Has, field_made, names_of};

use script_check_steps::check_part;
use script_check_terms::{
    Locals, ScriptFault, Setting, check_known, check_test, kind_of_field, name_of,
};
use script_tree::FieldValue;
use script_types::{CheckBad, FieldCode, FieldTerm, NamedList, Places};

/// Whether no field of the event is left out of these, whose names are given.
pub fn are_all_given(declared: &[FieldCode], fields: &[FieldValue], given: &Places) -> bool
    requires { Has given.now (names_of (map field_of fields.now)) }
    ensures { result ≡ are_all_given declared.now (names_of (map field_of fields.now)) }
{
    'declared: for field in declared {
        if given.get(field.name.as_bytes()).is_none() {
            return false;
        }
    }
    true
}

/// One field of an event.
#[derive(Drop)]
struct FieldPart {
    made: FieldTerm,
    /// Those of its value alone.
    tokens: usize,
}

/// One field of an event, which isn't among those before it, whose names are given; `at` tokens stand before its name.
fn check_field(
    setting: &Setting,
    scope: &Locals,
    declared: &NamedList<FieldCode>,
    before: &[FieldValue],
    given: &Places,
    at: usize,
    field: &FieldValue,
) -> Result<FieldPart, ScriptFault>
    requires room { at + 2 < usize.MAX }
    requires given { Has given.now (names_of (map field_of before.now)) }
    ensures made { Gives (λ r. field_term_of r.made) result (field_made (setting_of setting.now) scope.now declared.now (names_of (map field_of before.now)) at (field_of field.now)) }
    ensures tokens { IfOk result (λ r. r.tokens ≡ tokens_in (tree_of field.now.value)) }
{
    let name = field.name.as_bytes();
    let kind = check_known(at, kind_of_field(declared, name))?;
    check_test(CheckBad::Count, at, given.get(name).is_none())?;
    let value = check_part(setting, scope, kind, at + 2, &field.value)?;
    let made = FieldTerm {
        name: name_of(setting.alloc, &field.name)?,
        term: value.term,
    };
    Ok(FieldPart {
        made,
        tokens: value.tokens,
    })
}

/// The fields of an event that is fired.
#[derive(Drop)]
pub struct Fields {
    pub terms: Vec<FieldTerm>,
    /// With their brackets and the commas between them.
    pub tokens: usize,
    /// Their names.
    pub given: Places,
}

/// Each is a field of the event, and none stands twice; `at` tokens stand before the first name.
pub fn check_fields(
    setting: &Setting,
    scope: &Locals,
    declared: &NamedList<FieldCode>,
    at: usize,
    fields: &[FieldValue],
) -> Result<Fields, ScriptFault>
    requires { at + length (spell_fields (map field_of fields.now)) ≤ usize.MAX }
    ensures made { Gives (λ r. map field_term_of r.terms.items) result (fields_of (setting_of setting.now) scope.now declared.now [] at (map field_of fields.now)) }
    ensures tokens { IfOk result (λ r. r.tokens ≡ length (spell_fields (map field_of fields.now))) }
    ensures given { IfOk result (λ r. Has r.given (names_of (map field_of fields.now))) }
{
    let mut terms = Vec::new(setting.alloc);
    let mut given = Places::with_room(setting.alloc, fields.len())?;
    let mut here = at;
    'fields: for (i, field) in fields.iter().enumerate() {
        let part = check_field(setting, scope, declared, &fields[..i], &given, here, field)?;
        given.note(setting.alloc, field.name.as_bytes(), i)?;
        terms.push(part.made)?;
        here = here + 3 + part.tokens;
    }
    Ok(Fields {
        terms,
        tokens: with_brackets(here - at),
        given,
    })
}

/// The number of tokens where a comma was counted behind each field, and there are brackets only round fields.
fn with_brackets(tokens: usize) -> usize
    requires { tokens < usize.MAX }
    ensures { result ≡ if tokens == 0 then 0 else tokens + 1 }
{
    if tokens == 0 { 0 } else { tokens + 1 }
}
