//! Whether attributes are those that are declared.
ghost use Rattle.std.specs.Prelude.{◌≡◌, ◌&&◌};
ghost use Rattle.std.specs.Str.{bytes_eq};
ghost use Rattle.script_meaning.specs.Same.{same_kind};
ghost use Rattle.router_state.specs.Fits.{are_declared, is_of_kind};

use script_types::FieldCode;
use slee_value::{Kind, Name, Value};

fn is_same_kind(one: Kind, other: Kind) -> bool
    ensures { result ≡ same_kind one other }
{
    match (one, other) {
        (Kind::Int, Kind::Int)
        | (Kind::Text, Kind::Text)
        | (Kind::Bool, Kind::Bool)
        | (Kind::Activity, Kind::Activity)
        | (Kind::Timer, Kind::Timer) => true,
        _ => false,
    }
}

fn is_declared(declared: &FieldCode, field: &(Name, Value)) -> bool
    ensures { result ≡ (bytes_eq declared.now.name field.now.0 && is_of_kind declared.now.kind field.now.1) }
{
    declared.name.as_bytes() == field.0.as_bytes() && is_same_kind(declared.kind, field.1.kind())
}

/// Whether the fields are the declared ones, each once and of its type.
pub fn are_declared(declared: &[FieldCode], fields: &[(Name, Value)]) -> bool
    ensures { result ≡ are_declared declared.now fields.now }
{
    if declared.len() != fields.len() {
        return false;
    }
    for (place, field) in fields.iter().enumerate() {
        if !is_declared(&declared[place], field) {
            return false;
        }
    }
    true
}
