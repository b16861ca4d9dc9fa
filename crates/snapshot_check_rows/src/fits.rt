//! Whether numbers, texts and values have spellings, and named values are the declared ones.
ghost use Rattle.std.specs.Prelude.{◌≡◌, ◌&&◌, map};
ghost use Rattle.std.specs.List.{list_all};
ghost use Rattle.std.specs.Str.{bytes_eq};
ghost use Rattle.script_meaning.specs.Same.{same_kind};
ghost use Rattle.router_state.specs.Fits.{is_drawn, is_i64, is_priority, is_text, is_value, none_or, are_declared, is_of_kind};

use router_state::Field;
use script_types::FieldCode;
use slee_value::{Kind, Name, Text, Value};
use std::str;

/// No text has as many bytes: its length is written in 32 bits.
const TEXT_ROOM: u64 = 4_294_967_296;

/// A value under its name.
pub trait NamedValue {
    ghost use Rattle.std.specs.Prelude.{ℕ, List};
    ghost use Rattle.slee_value.specs.declared.value.Value.{Value};

    ghost pair: { Self → List ℕ × Value };

    fn name(&self) -> &[u8]
        ensures { result.now ≡ (pair self.now).0 };

    fn value(&self) -> &Value
        ensures { result.now ≡ (pair self.now).1 };
}

impl NamedValue for (Name, Value) {
    ghost pair = { λ field. field };

    fn name(&self) -> &[u8] {
        self.0.as_bytes()
    }

    fn value(&self) -> &Value {
        &self.1
    }
}

impl NamedValue for Field {
    ghost pair = { λ row. (row.name, row.value) };

    fn name(&self) -> &[u8] {
        self.name.as_bytes()
    }

    fn value(&self) -> &Value {
        &self.value
    }
}

/// Whether the number was drawn, where the next one is this.
pub fn is_drawn(next: u64, number: u64) -> bool
    ensures { result ≡ is_drawn next number }
{
    0 < number && number < next
}

/// Each number of this type has a spelling.
#[tactic(auto, using(crate::proofs::FitLemmas::number_fits))]
fn is_i64(_number: i64) -> bool
    ensures { result ≡ is_i64 _number }
{
    true
}

/// Each number of this type is a priority.
#[tactic(auto, using(crate::proofs::FitLemmas::priority_fits))]
pub fn is_priority(_priority: i8) -> bool
    ensures { result ≡ is_priority _priority }
{
    true
}

/// Whether a text has a spelling.
#[tactic(auto, using(crate::proofs::FitLemmas::text_fits))]
pub fn is_text(text: &Text) -> bool
    ensures { result ≡ is_text text.now }
{
    (text.len() as u64) < TEXT_ROOM
}

/// Whether bytes are a text that has a spelling.
#[tactic(auto, using(crate::proofs::FitLemmas::bytes_fit, crate::proofs::FitLemmas::bytes_unfit))]
pub fn are_text(bytes: &[u8]) -> bool
    ensures { result ≡ is_text bytes.now }
{
    match str::from_utf8(bytes) {
        Ok(_) => (bytes.len() as u64) < TEXT_ROOM,
        Err(_) => false,
    }
}

/// Whether a text has a spelling, where there is one.
pub fn is_none_or_text(text: &Option<Text>) -> bool
    ensures { result ≡ none_or is_text text.now }
{
    match text {
        None => true,
        Some(text) => is_text(text),
    }
}

/// Whether a value has a spelling, and the activity or timer that it names was there once.
pub fn is_value(next_activity: u64, next_timer: u64, value: &Value) -> bool
    ensures { result ≡ is_value next_activity next_timer value.now }
{
    match value {
        Value::Int(number) => is_i64(*number),
        Value::Text(text) => is_text(text),
        Value::Bool(_) => true,
        Value::Activity(activity) => activity.0 < next_activity,
        Value::Timer(timer) => timer.0 < next_timer,
    }
}

/// Whether the values of all fields are such.
pub fn are_values(next_activity: u64, next_timer: u64, fields: &[(Name, Value)]) -> bool
    ensures { result ≡ list_all (λ field. is_value next_activity next_timer field.1) fields.now }
{
    fields
        .iter()
        .all(|field| is_value(next_activity, next_timer, &field.1))
}

fn is_same_kind(one: Kind, other: Kind) -> bool
    ensures { result ≡ same_kind one other }
{
    match (one, other) {
        (Kind::Int, Kind::Int)
        | (Kind::Text, Kind::Text)
        | (Kind::Bool, Kind::Bool)
        | (Kind::Activity, Kind::Activity)
        | (Kind::Timer, Kind::Timer) => true,
        _ => false,
    }
}

/// Whether the value is of this kind.
pub fn is_of_kind(kind: Kind, value: &Value) -> bool
    ensures { result ≡ is_of_kind kind value.now }
{
    is_same_kind(kind, value.kind())
}

/// Whether the named value is the declared one.
pub fn is_declared(name: &[u8], kind: Kind, field: &[u8], value: &Value) -> bool
    ensures { result ≡ (bytes_eq name.now field.now && is_of_kind kind value.now) }
{
    name == field && is_of_kind(kind, value)
}

/// Whether the named values are the declared ones, each once and of its kind.
#[tactic(auto, using(crate::proofs::FitLemmas::one_declared, crate::proofs::FitLemmas::not_declared))]
pub fn are_declared<T: NamedValue>(declared: &[FieldCode], fields: &[T]) -> bool
    ensures { result ≡ are_declared declared.now (map T.pair fields.now) }
{
    let mut left = declared;
    'fields: for field in fields {
        match left.split_first() {
            Some((code, more)) => {
                if !is_declared(code.name.as_bytes(), code.kind, field.name(), field.value()) {
                    return false;
                }
                left = more;
            }
            None => return false,
        }
    }
    match left {
        [] => true,
        [_, ..] => false,
    }
}

/// Whether the fields are the declared ones, each once and of its kind.
#[tactic(auto, using(crate::proofs::FitLemmas::all_same))]
pub fn are_declared_fields(declared: &[FieldCode], fields: &[(Name, Value)]) -> bool
    ensures { result ≡ are_declared declared.now fields.now }
{
    are_declared(declared, fields)
}
