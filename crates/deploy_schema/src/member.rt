//! Texts and members of a value.
ghost use Rattle.std.specs.Prelude.{◌≡◌, [], option_map, unwrap_or};
ghost use Rattle.serde_json.specs.Find.{as_str, as_object, get};
ghost use Rattle.serde_json.specs.View.{view, members_view};
ghost use Rattle.std.specs.Prelude.{option_and_then};
ghost use Rattle.deploy_schema.specs.Ids.{text_at as text_so};

use crate::numbers::member_text;
use serde_json::{Map, Value};

/// The text that a value is, empty where it is none.
pub fn text_or_empty<'v>(value: &'v Value) -> &'v str
    ensures { result.now ≡ unwrap_or (as_str (view value.now)) [] }
{
    match value.as_str() {
        Some(text) => text,
        None => "",
    }
}

/// The text that an object has at a member, empty where there is none.
pub fn text_at<'v>(value: &'v Value, name: &str) -> &'v str
    ensures { result.now ≡ text_so name.now (view value.now) }
{
    match member_text(value, name) {
        Some(text) => text,
        None => "",
    }
}

/// The object that a value has at a member.
pub fn object_at<'v>(value: &'v Value, name: &str) -> Option<&'v Map<String, Value>>
    ensures { option_map (λ m. members_view m.now.entries) result ≡ option_and_then as_object (get name.now (view value.now)) }
{
    value.get(name).and_then(Value::as_object)
}
