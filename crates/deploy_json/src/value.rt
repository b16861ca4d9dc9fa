//! Names, texts, types, numbers and truth values of a document.
ghost use Rattle.std.specs.Prelude.{◌≡◌, IfOk, IsTrue};
ghost use Rattle.serde_json.specs.View.{view};
ghost use Rattle.deploy_schema.specs.Ids.{text_at as text_so, id_of};
ghost use Rattle.deploy_json.specs.Values.{text_of, kind_of as kind_so, field_of, alias_of, table_of, priority_number as number_so, priority_at as priority_so, flag_at as flag_so, parameter_of, result_of as result_so};
ghost use Rattle.deploy_json.specs.Shapes.{IsName, IsNameValue, IsKind, IsField, IsNamePair, IsParameter, HasPriority, is_priority};

use crate::build::{Build, BuildEntry};
use deploy_model::Table;
use deploy_schema::{kind_of_word, member_text, text_at, text_or_empty};
use serde_json::Value;
use slee_value::{ComponentId, Kind, Name, NoMemory, Text};
use std::alloc::Global;

/// The name that a text is.
pub(crate) fn name_of(alloc: Global, text: &str) -> Result<Name, NoMemory>
    requires { IsName text.now }
    ensures { IfOk result (λ n. n ≡ text.now) }
{
    Name::from_slice(alloc, text.as_bytes())
}

/// The name that an object has at a member.
pub(crate) fn name_at(alloc: Global, value: &Value, member: &str) -> Result<Name, NoMemory>
    requires { IsName (text_so member.now (view value.now)) }
    ensures { IfOk result (λ n. n ≡ text_so member.now (view value.now)) }
{
    name_of(alloc, text_at(value, member))
}

/// The name that a value is.
fn name_value(alloc: Global, value: &Value) -> Result<Name, NoMemory>
    requires { IsNameValue (view value.now) }
    ensures { IfOk result (λ n. n ≡ text_of (view value.now)) }
{
    name_of(alloc, text_or_empty(value))
}

/// The text that an object has at a member.
pub(crate) fn copy_text(alloc: Global, value: &Value, member: &str) -> Result<Text, NoMemory>
    ensures { IfOk result (λ t. t ≡ text_so member.now (view value.now)) }
{
    Text::from_str(alloc, text_at(value, member))
}

/// The component that an item is.
pub(crate) fn id_at(alloc: Global, value: &Value) -> Result<ComponentId, NoMemory>
    ensures { IfOk result (λ id. id ≡ id_of (view value.now)) }
{
    Ok(ComponentId {
        name: copy_text(alloc, value, "name")?,
        vendor: copy_text(alloc, value, "vendor")?,
        version: copy_text(alloc, value, "version")?,
    })
}

/// The type that a word names.
fn kind_of(word: &str) -> Kind
    requires { IsKind word.now }
    ensures { result ≡ kind_so word.now }
{
    match kind_of_word(word) {
        Some(kind) => kind,
        None => unreachable!(),
    }
}

/// A number where a priority stands.
fn narrow(number: i64) -> i8
    requires { IsTrue (is_priority number) }
    ensures { result ≡ number }
{
    number as i8
}

/// The number that an object has as its priority.
fn priority_number(value: &Value) -> Option<i64>
    ensures { result ≡ number_so (view value.now) }
{
    value.get("priority").and_then(Value::as_i64)
}

/// The priority that an object has, 0 where it names none.
pub(crate) fn priority_at(value: &Value) -> i8
    requires { HasPriority (view value.now) }
    ensures { result ≡ priority_so (view value.now) }
{
    match priority_number(value) {
        Some(number) => narrow(number),
        None => 0,
    }
}

/// The truth value that an object has at a member, false where it names none.
pub(crate) fn flag_at(value: &Value, member: &str) -> bool
    ensures { result ≡ flag_so member.now (view value.now) }
{
    value.get(member).and_then(Value::as_bool).unwrap_or(false)
}

/// The type that a method returns, if it returns a value.
pub(crate) fn result_of(value: &Value) -> Option<Kind>
    ensures { result ≡ result_so (view value.now) }
{
    match member_text(value, "returns") {
        Some(word) => kind_of_word(word),
        None => None,
    }
}

/// A name.
#[derive(Drop)]
pub(crate) struct NameValue;

impl Build<Name> for NameValue {
    ghost fits = { λ _. IsNameValue };

    ghost built = { λ _. text_of };

    fn build(&self, alloc: Global, value: &Value) -> Result<Name, NoMemory> {
        name_value(alloc, value)
    }
}

/// A field, an attribute or the like, with its type.
#[derive(Drop)]
pub(crate) struct Field;

impl BuildEntry<(Name, Kind)> for Field {
    ghost fits_entry = { λ _. IsField };

    ghost built_entry = { λ _. field_of };

    fn build_entry(
        &self,
        alloc: Global,
        name: &str,
        value: &Value,
    ) -> Result<(Name, Kind), NoMemory> {
        Ok((name_of(alloc, name)?, kind_of(text_or_empty(value))))
    }
}

/// An attribute and its alias.
#[derive(Drop)]
pub(crate) struct Alias;

impl BuildEntry<(Name, Name)> for Alias {
    ghost fits_entry = { λ _. IsNamePair };

    ghost built_entry = { λ _. alias_of };

    fn build_entry(
        &self,
        alloc: Global,
        name: &str,
        value: &Value,
    ) -> Result<(Name, Name), NoMemory> {
        Ok((name_of(alloc, name)?, name_value(alloc, value)?))
    }
}

/// A profile table.
#[derive(Drop)]
pub(crate) struct TableEntry;

impl BuildEntry<Table> for TableEntry {
    ghost fits_entry = { λ _. IsNamePair };

    ghost built_entry = { λ _. table_of };

    fn build_entry(&self, alloc: Global, name: &str, value: &Value) -> Result<Table, NoMemory> {
        Ok(Table {
            name: name_of(alloc, name)?,
            profile: name_value(alloc, value)?,
        })
    }
}

/// A parameter of a method.
#[derive(Drop)]
pub(crate) struct Parameter;

impl Build<(Name, Kind)> for Parameter {
    ghost fits = { λ _. IsParameter };

    ghost built = { λ _. parameter_of };

    fn build(&self, alloc: Global, value: &Value) -> Result<(Name, Kind), NoMemory> {
        Ok((
            name_at(alloc, value, "name")?,
            kind_of(text_at(value, "type")),
        ))
    }
}
