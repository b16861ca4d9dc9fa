//! The convergence name of an event for a service.
ghost use Rattle.std.specs.Prelude.{◌≡◌, IfOk, option_and_then, option_map};
ghost use Rattle.deploy_model.specs.Resolving.{deployed_of, custom_of};
ghost use Rattle.router_steps.specs.Selection.{selected, text_by_choice};
ghost use Rattle.initial_select.specs.Candidates.{candidate_of, choice_of};
ghost use Rattle.initial_select.specs.Customs.{given_by};
ghost use Rattle.initial_select.specs.Selections.{named_by};

use crate::handlers::root_handler;
use crate::naming::{Candidate, name_by_variables, text_field};
use crate::{Custom, Selection, Selectors};
use deploy_model::{CustomRule, SelectRule, rule_of};
use slee_descriptor::Deployment;
use slee_value::{ActivityId, Blob, EventId, Name, NoMemory, Payload, Text};
use std::alloc::Global;

/// The convergence name of an event on an activity for a service, where the event is initial for it.
pub fn convergence(
    alloc: Global,
    deployment: &Deployment,
    service: u32,
    activity: ActivityId,
    event: EventId,
    name: &Text,
    fields: &Payload,
    selectors: &Selectors,
) -> Result<Selection, NoMemory>
    ensures { IfOk result (λ selection. named_by selection ≡ selected (deployed_of deployment.now.parts) service (record { activity = activity.0; event = event.0; name = name.now; fields = fields.now })) }
{
    let Some(handler) = root_handler(deployment, service, name) else {
        return Ok(Selection::NotInitial);
    };
    let candidate = Candidate {
        activity,
        event,
        name,
        fields,
    };
    let Custom::Named(custom) = custom_text(alloc, &handler.custom, &candidate, selectors)? else {
        return Ok(Selection::NotInitial);
    };
    let name = name_by_variables(alloc, &handler.initial, &candidate, &custom)?;
    Ok(Selection::Named(name))
}

/// The text that a custom selection gives, empty where there is no custom selection.
fn custom_text(
    alloc: Global,
    custom: &Option<CustomRule>,
    candidate: &Candidate,
    selectors: &Selectors,
) -> Result<Custom, NoMemory>
    ensures { IfOk result (λ text. given_by text ≡ text_by_choice (option_and_then custom_of custom.now) (candidate_of candidate.now)) }
{
    match custom_choice(custom) {
        None => Ok(Custom::Named(Blob::new(alloc))),
        Some((rule, field)) => {
            let text = text_field(candidate.fields, field.as_str());
            selectors.pick(rule, text.as_bytes())
        }
    }
}

/// The rule and the field of a custom selection.
fn custom_choice(custom: &Option<CustomRule>) -> Option<(SelectRule, &Name)>
    ensures { option_map choice_of result ≡ option_and_then custom_of custom.now }
{
    match custom {
        Some(custom) => {
            let rule = rule_of(custom.rule.as_str())?;
            Some((rule, &custom.field))
        }
        None => None,
    }
}
