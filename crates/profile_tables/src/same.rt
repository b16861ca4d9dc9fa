//! Values compared, and found by their names.
ghost use Rattle.std.specs.Prelude.{◌≡◌, option_copied};
ghost use Rattle.script_meaning.specs.Same.{same_int, same_value};
ghost use Rattle.router_state.specs.Profiles.{value_of};
ghost use Rattle.profile_tables.specs.Faults.{alike_in};

use slee_value::{Name, Value};

fn is_same_number(one: i64, other: i64) -> bool
    ensures { result ≡ same_int one other }
{
    one == other
}

fn is_same_value(one: &Value, other: &Value) -> bool
    ensures { result ≡ same_value one.now other.now }
{
    match (one, other) {
        (Value::Int(one), Value::Int(other)) => is_same_number(*one, *other),
        (Value::Text(one), Value::Text(other)) => one.as_bytes() == other.as_bytes(),
        (Value::Bool(one), Value::Bool(other)) => *one == *other,
        (Value::Activity(one), Value::Activity(other)) => one.0 == other.0,
        (Value::Timer(one), Value::Timer(other)) => one.0 == other.0,
        _ => false,
    }
}

/// The value of this name.
pub fn value_of<'a>(fields: &'a [(Name, Value)], name: &Name) -> Option<&'a Value>
    ensures { option_copied result ≡ value_of fields.now name.now }
{
    for (other, value) in fields {
        if other.as_bytes() == name.as_bytes() {
            return Some(value);
        }
    }
    None
}

/// Whether this attribute has the same value in both lists.
pub fn is_alike(one: &[(Name, Value)], other: &[(Name, Value)], name: &Name) -> bool
    ensures { result ≡ alike_in one.now other.now name.now }
{
    match (value_of(one, name), value_of(other, name)) {
        (Some(one), Some(other)) => is_same_value(one, other),
        (None, None) => true,
        _ => false,
    }
}
