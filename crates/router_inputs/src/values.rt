//! The values that the field words of a line give.
ghost use Rattle.std.specs.Prelude.{◌≡◌, IfOk, IsTrue, option_copied};
ghost use Rattle.router_steps.specs.Values.{bool_in, fields_given, text_given, value_given, value_in, values_given};
ghost use Rattle.router_inputs.specs.InOrder.{are_rising};

use script_types::FieldCode;
use signal_script::Fields;
use signed_decimals::int_in;
use slee_value::{Kind, Name, NoMemory, Payload, Text, Value};
use std::alloc::Global;

fn bool_in(word: &str) -> Option<bool>
    ensures { result ≡ bool_in word.now }
{
    if word == "true" {
        return Some(true);
    }
    if word == "false" { Some(false) } else { None }
}

/// The value of a type that a text stands for. Activities and timers can't be given.
fn value_in(alloc: Global, kind: Kind, text: &str) -> Result<Option<Value>, NoMemory>
    ensures { IfOk result (λ value. value ≡ value_in kind text.now) }
{
    match kind {
        Kind::Int => Ok(int_in(text.as_bytes()).map(Value::Int)),
        Kind::Text => Ok(Some(Value::Text(Text::from_str(alloc, text)?))),
        Kind::Bool => Ok(bool_in(text).map(Value::Bool)),
        Kind::Activity | Kind::Timer => Ok(None),
    }
}

/// The text that the words give to a name.
fn text_given<'a>(name: &Name, words: &'a Fields) -> Option<&'a str>
    ensures { option_copied result ≡ text_given name.now words.now }
{
    let mut left = words.all();
    'words: while let Some(((other, text), more)) = left.split_first() {
        if other.as_bytes() == name.as_bytes() {
            return Some(text);
        }
        left = more;
    }
    None
}

/// The value that the words give to a declared field.
fn value_given(alloc: Global, field: &FieldCode, words: &Fields) -> Result<Option<Value>, NoMemory>
    ensures { IfOk result (λ value. value ≡ value_given field.now words.now) }
{
    match text_given(&field.name, words) {
        Some(text) => value_in(alloc, field.kind, text),
        None => Ok(None),
    }
}

/// The values of these fields, where the words give each.
#[tactic(auto, using(crate::proofs::OrderLemmas::next_fits))]
fn values_given(
    alloc: Global,
    fields: &[FieldCode],
    words: &Fields,
) -> Result<Option<Payload>, NoMemory>
    requires { IsTrue (are_rising fields.now) }
    ensures { IfOk result (λ values. values ≡ values_given fields.now words.now) }
{
    let mut values = Payload::new(alloc);
    'fields: for field in fields {
        match value_given(alloc, field, words)? {
            Some(value) => {
                let _len = values.len();
                values.push(field.name.copy(alloc)?, value)?;
            }
            None => return Ok(None),
        }
    }
    Ok(Some(values))
}

/// The values of the declared fields, where the words give each of these and no more.
pub fn fields_given(
    alloc: Global,
    fields: &[FieldCode],
    words: &Fields,
) -> Result<Option<Payload>, NoMemory>
    requires { IsTrue (are_rising fields.now) }
    ensures { IfOk result (λ values. values ≡ fields_given fields.now words.now) }
{
    if words.len() == fields.len() {
        values_given(alloc, fields, words)
    } else {
        Ok(None)
    }
}
