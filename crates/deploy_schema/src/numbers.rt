//! Which item of an array has a text at a member, and the items and texts that a value has.
ghost use Rattle.std.specs.Prelude.{◌≡◌, Option, IfOk, OnOk, option_map};
ghost use Rattle.script_tree.specs.Tree.{Bytes};
ghost use Rattle.deploy_model.specs.Rules.{or_later};
ghost use Rattle.serde_json.specs.View.{view, items_view};
ghost use Rattle.deploy_schema.specs.Numbers.{answer_of, where_named, numbers_from, member_text as text_so, items_of, items_at};
ghost use Rattle.deploy_schema.specs.Texts.{name_number};

use crate::firsts::{Firsts, Numbers};
use serde_json::Value;
use slee_value::{Name, NoMemory};
use std::alloc::Global;

/// The text that an object has at a member.
pub fn member_text<'v>(value: &'v Value, name: &str) -> Option<&'v str>
    ensures { option_map (λ s. s.now) result ≡ text_so name.now (view value.now) }
{
    value.get(name).and_then(Value::as_str)
}

/// The items of a value, none where it is no array.
pub fn array_items<'v>(value: &'v Value) -> &'v [Value]
    ensures { items_view result.now ≡ items_of (view value.now) }
{
    match value.as_array() {
        Some(items) => items.as_slice(),
        None => &[],
    }
}

/// The items of an array that an object has at a member, none where there is no array.
pub fn items_in<'v>(value: &'v Value, name: &str) -> &'v [Value]
    ensures { items_view result.now ≡ items_at name.now (view value.now) }
{
    match value.get(name).and_then(Value::as_array) {
        Some(items) => items.as_slice(),
        None => &[],
    }
}

/// The item's text at the member stands for the item, if it stood for none before.
fn note_item<'v>(
    numbers: &mut Numbers<'v>,
    name: &str,
    i: usize,
    item: &'v Value,
) -> Result<(), NoMemory>
    ensures { OnOk result ((q : Bytes) → answer_of numbers.new q ≡ or_later (answer_of numbers.old q) (where_named i (text_so name.now (view item.now)) q)) }
{
    match member_text(item, name) {
        Some(text) => numbers.note(text, i),
        None => Ok(()),
    }
}

/// Which item of an array has each text at the member.
pub(crate) fn numbers_of<'v>(
    alloc: Global,
    name: &str,
    items: &'v [Value],
) -> Result<Numbers<'v>, NoMemory>
    ensures { IfOk result (λ n. answer_of n ≡ numbers_from name.now 0 (items_view items.now)) }
{
    let mut numbers = Firsts::new(alloc);
    for (i, item) in items.iter().enumerate() {
        note_item(&mut numbers, name, i, item)?;
    }
    Ok(numbers)
}

/// What a text names, where it is of the form of names.
pub(crate) fn number_of_name(numbers: &Numbers, name: &str) -> Option<usize>
    ensures { result ≡ name_number (answer_of numbers.now) name.now }
{
    if Name::is_name(name.as_bytes()) {
        numbers.get(name)
    } else {
        None
    }
}
