//! Convergence names, made of the variables that a block declares.
ghost use Rattle.std.specs.Prelude.{◌≡◌, [], IfOk, OnOk, filter_map, option_copied, option_map, find, bytes_eq};
ghost use Rattle.std.specs.List.{fold};
ghost use Rattle.std.specs.Option.{unwrap_or};
ghost use Rattle.deploy_model.specs.Rules.{variable_of as variable_so};
ghost use Rattle.router_steps.specs.Selection.{no_variable, with_variable, text_field as text_so};
ghost use Rattle.initial_select.specs.Candidates.{candidate_of};

use deploy_model::{Variable, variable_of};
use script_types::CodeList;
use slee_value::{ActivityId, Blob, ConvName, EventId, Name, NoMemory, Payload, Text, Value};
use std::alloc::Global;

/// The field of an event that has its address.
const ADDRESS: &str = "addr";

/// An event on an activity, which may select a root.
#[derive(Drop)]
pub(crate) struct Candidate<'e> {
    pub activity: ActivityId,
    pub event: EventId,
    pub name: &'e Text,
    pub fields: &'e Payload,
}

/// The name of the variables that these words name; none where there are no words.
pub(crate) fn name_by_variables(
    alloc: Global,
    words: &Option<CodeList<Text>>,
    candidate: &Candidate,
    custom: &Blob,
) -> Result<ConvName, NoMemory>
    ensures { IfOk result (λ name. name ≡ fold (with_variable (candidate_of candidate.now) custom.now) no_variable (unwrap_or (option_map (filter_map variable_so) words.now) [])) }
{
    let mut name = ConvName {
        activity: None,
        address: None,
        event_type: None,
        event: None,
        custom: None,
    };
    if let Some(words) = words {
        put_variables(alloc, words.as_slice(), candidate, custom, &mut name)?;
    }
    Ok(name)
}

/// Puts the variables that these words name into the name.
fn put_variables(
    alloc: Global,
    words: &[Text],
    candidate: &Candidate,
    custom: &Blob,
    name: &mut ConvName,
) -> Result<(), NoMemory>
    ensures { OnOk result (name.new ≡ fold (with_variable (candidate_of candidate.now) custom.now) name.old (filter_map variable_so words.now)) }
{
    for word in words {
        if let Some(variable) = variable_of(word.as_str()) {
            put_variable(alloc, variable, candidate, custom, name)?;
        }
    }
    Ok(())
}

/// Puts the variable into the name.
fn put_variable(
    alloc: Global,
    variable: Variable,
    candidate: &Candidate,
    custom: &Blob,
    name: &mut ConvName,
) -> Result<(), NoMemory>
    ensures { OnOk result (name.new ≡ with_variable (candidate_of candidate.now) custom.now name.old variable) }
{
    match variable {
        Variable::Activity => name.activity = Some(candidate.activity),
        Variable::Address => {
            let address = text_field(candidate.fields, ADDRESS);
            name.address = Some(Text::from_str(alloc, address)?);
        }
        Variable::EventType => name.event_type = Some(candidate.name.copy(alloc)?),
        Variable::Event => name.event = Some(candidate.event),
        Variable::Custom => name.custom = Some(custom.copy(alloc)?),
    }
    Ok(())
}

/// The text of an event's field, empty where there is none.
pub(crate) fn text_field<'e>(fields: &'e Payload, name: &str) -> &'e str
    ensures { result.now ≡ text_so fields.now name.now }
{
    match field_among(fields.as_slice(), name) {
        Some((_, Value::Text(text))) => text.as_str(),
        _ => "",
    }
}

/// The first of these fields that has the name.
fn field_among<'e>(fields: &'e [(Name, Value)], name: &str) -> Option<&'e (Name, Value)>
    ensures { option_copied result ≡ find (λ field. bytes_eq field.0 name.now) fields.now }
{
    fields.iter().find(|field| field.0.as_str() == name)
}
