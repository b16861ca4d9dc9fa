//! The numbers that values are made into, under which rows are found.
ghost use Rattle.std.specs.Prelude.{◌≡◌};
ghost use Rattle.profile_tables.specs.Unique.{number_in, value_key, value_number};

use crate::same::value_of;
use rows_index::{number_of, number_with};
use slee_value::{Name, Value};

fn value_number(value: &Value) -> u64
    ensures { result ≡ value_number value.now }
{
    match value {
        Value::Int(number) => number.cast_unsigned(),
        Value::Text(text) => number_of(text.as_bytes()),
        Value::Bool(flag) => { if *flag { 1 } else { 0 } }
        Value::Activity(activity) => activity.0,
        Value::Timer(timer) => timer.0,
    }
}

fn number_in(fields: &[(Name, Value)], name: &Name) -> u64
    ensures { result ≡ number_in fields.now name.now }
{
    match value_of(fields, name) {
        Some(value) => value_number(value),
        None => 0,
    }
}

/// The number of an attribute of a table with its value: the same for the same value.
pub fn value_key(table: u32, fields: &[(Name, Value)], name: &Name) -> u64
    ensures { result ≡ value_key table fields.now name.now }
{
    let number = number_with(number_in(fields, name), name.as_bytes());
    number_with(number + table as u64, &[])
}
