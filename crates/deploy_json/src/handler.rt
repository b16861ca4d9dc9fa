//! The events that a block handles, and its methods.
ghost use Rattle.std.specs.Prelude.{◌≡◌, IfOk, map, decimal, codes};
ghost use Rattle.serde_json.specs.Find.{get};
ghost use Rattle.serde_json.specs.View.{view, items_view, members_view};
ghost use Rattle.deploy_schema.specs.Pointers.{escaped};
ghost use Rattle.deploy_json.specs.Values.{text_of, listed, entries, initial_of as initial_so, custom_rule_of, custom_of as custom_so};
ghost use Rattle.deploy_json.specs.Shapes.{EachItem, EachMember, WhereThere, IsCustomRule, IsHandler, IsMethod};
ghost use Rattle.deploy_json.specs.Sources.{Says, member_misread, under, items_misread, entries_misread};
ghost use Rattle.deploy_json.specs.Rows.{handler_row, method_row};
ghost use Rattle.deploy_json.specs.Documents.{handler_of, method_of};

use crate::build::{Build, build_items, build_list};
use crate::parts_fault::PartsFault;
use crate::script::needed_script;
use crate::value::{Parameter, copy_text, flag_at, name_at, name_of, result_of};
use deploy_model::{BlockEvent, CustomRule, Method};
use deploy_schema::text_or_empty;
use script_types::CodeList;
use serde_json::{Map, Value};
use slee_value::{NoMemory, Text};
use std::alloc::Global;

/// A word.
#[derive(Drop)]
struct WordValue;

impl Build<Text> for WordValue {
    ghost fits = { λ _ _. Unit {0} };

    ghost built = { λ _. text_of };

    fn build(&self, alloc: Global, value: &Value) -> Result<Text, NoMemory> {
        Text::from_str(alloc, text_or_empty(value))
    }
}

/// The words of the variables of an initial event.
fn initial_of(alloc: Global, value: &Value) -> Result<Option<CodeList<Text>>, NoMemory>
    ensures { IfOk result (λ o. o ≡ initial_so (view value.now)) }
{
    match value.get("initial").and_then(Value::as_array) {
        Some(words) => Ok(Some(build_items(alloc, &WordValue, words.as_slice())?)),
        None => Ok(None),
    }
}

fn custom_rule(alloc: Global, value: &Value) -> Result<CustomRule, NoMemory>
    requires { IsCustomRule (view value.now) }
    ensures { IfOk result (λ c. c ≡ custom_rule_of (view value.now)) }
{
    Ok(CustomRule {
        rule: copy_text(alloc, value, "rule")?,
        field: name_at(alloc, value, "field")?,
    })
}

/// The custom selection of an initial event.
fn custom_of(alloc: Global, value: &Value) -> Result<Option<CustomRule>, NoMemory>
    requires { WhereThere IsCustomRule (get (codes "custom") (view value.now)) }
    ensures { IfOk result (λ o. o ≡ custom_so (view value.now)) }
{
    match value.get("custom") {
        Some(custom) => Ok(Some(custom_rule(alloc, custom)?)),
        None => Ok(None),
    }
}

fn build_handler(alloc: Global, value: &Value) -> Result<BlockEvent, PartsFault>
    requires { IsHandler (view value.now) }
    ensures built { IfOk result (λ h. handler_row h ≡ handler_of (view value.now)) }
    ensures fault { Says (member_misread (codes "on") (view value.now)) result }
{
    let on = needed_script(alloc, value, "on")?;
    let event = copy_text(alloc, value, "event")?;
    let initial = initial_of(alloc, value)?;
    let custom = custom_of(alloc, value)?;
    Ok(BlockEvent {
        event,
        initial,
        custom,
        mask: flag_at(value, "mask"),
        on,
    })
}

fn handler_at(alloc: Global, i: usize, value: &Value) -> Result<BlockEvent, PartsFault>
    requires { IsHandler (view value.now) }
    ensures built { IfOk result (λ h. handler_row h ≡ handler_of (view value.now)) }
    ensures fault { Says (under (decimal i) (member_misread (codes "on") (view value.now))) result }
{
    match build_handler(alloc, value) {
        Ok(handler) => Ok(handler),
        Err(fault) => Err(fault.under(alloc, format!(in alloc; "{i}")?.as_str())),
    }
}

/// The handlers that an array's items are.
pub(crate) fn build_handlers(
    alloc: Global,
    items: &[Value],
) -> Result<CodeList<BlockEvent>, PartsFault>
    requires { EachItem IsHandler (items_view items.now) }
    ensures built { IfOk result (λ l. map handler_row l ≡ listed handler_of (items_view items.now)) }
    ensures fault { Says (items_misread (member_misread (codes "on")) 0 (items_view items.now)) result }
{
    let mut handlers = CodeList::new(alloc);
    for (i, item) in items.iter().enumerate() {
        handlers.push(handler_at(alloc, i, item)?)?;
    }
    Ok(handlers)
}

fn build_method(alloc: Global, name: &str, value: &Value) -> Result<Method, PartsFault>
    requires { IsMethod name.now (view value.now) }
    ensures built { IfOk result (λ m. method_row m ≡ method_of name.now (view value.now)) }
    ensures fault { Says (member_misread (codes "do") (view value.now)) result }
{
    let body = needed_script(alloc, value, "do")?;
    let params = build_list(alloc, &Parameter, value, "params")?;
    let name = name_of(alloc, name)?;
    Ok(Method {
        name,
        params,
        returns: result_of(value),
        body,
    })
}

fn method_at(alloc: Global, name: &str, value: &Value) -> Result<Method, PartsFault>
    requires { IsMethod name.now (view value.now) }
    ensures built { IfOk result (λ m. method_row m ≡ method_of name.now (view value.now)) }
    ensures fault { Says (under (escaped name.now) (member_misread (codes "do") (view value.now))) result }
{
    match build_method(alloc, name, value) {
        Ok(method) => Ok(method),
        Err(fault) => Err(fault.under_name(alloc, name)),
    }
}

/// The methods that an object's members are.
pub(crate) fn build_methods(
    alloc: Global,
    members: &Map<String, Value>,
) -> Result<CodeList<Method>, PartsFault>
    requires { EachMember IsMethod (members_view members.now.entries) }
    ensures built { IfOk result (λ l. map method_row l ≡ entries method_of (members_view members.now.entries)) }
    ensures fault { Says (entries_misread (member_misread (codes "do")) (members_view members.now.entries)) result }
{
    let mut methods = CodeList::new(alloc);
    for (name, item) in members {
        methods.push(method_at(alloc, name.as_str(), item)?)?;
    }
    Ok(methods)
}
