//! Selections by the four rules as they are.
ghost use Rattle.std.specs.Prelude.{◌≡◌, IfOk};
ghost use Rattle.deploy_model.specs.Resolving.{deployed_of};
ghost use Rattle.initial_select.specs.Selections.{named_by};
ghost use Rattle.router_steps.specs.Selection.{selected};

use initial_select::{SelectRule, Selection, Selector, Selectors, convergence, custom_name};
use slee_descriptor::Deployment;
use slee_value::{ActivityId, EventId, NoMemory, Payload, Text};
use std::alloc::Global;

/// The convergence name of an event on an activity for a service, by selectors of the four rules.
pub fn select(
    alloc: Global,
    deployment: &Deployment,
    service: u32,
    activity: ActivityId,
    event: EventId,
    name: &Text,
    fields: &Payload,
) -> Result<Selection, NoMemory>
    ensures { IfOk result (λ selection. named_by selection ≡ selected (deployed_of deployment.now.parts) service (record { activity = activity.0; event = event.0; name = name.now; fields = fields.now })) }
{
    let whole = Box::new(
        alloc,
        move |text: &[u8]| custom_name(alloc, SelectRule::Whole, text),
    )?;
    let digits3 = Box::new(alloc, move |text: &[u8]| {
        custom_name(alloc, SelectRule::Digits3, text)
    })?;
    let scheme = Box::new(
        alloc,
        move |text: &[u8]| custom_name(alloc, SelectRule::Scheme, text),
    )?;
    let screened = Box::new(alloc, move |text: &[u8]| {
        custom_name(alloc, SelectRule::Screened, text)
    })?;
    let selectors = Selectors::new(
        Selector::new(SelectRule::Whole, whole),
        Selector::new(SelectRule::Digits3, digits3),
        Selector::new(SelectRule::Scheme, scheme),
        Selector::new(SelectRule::Screened, screened),
    );
    convergence(
        alloc, deployment, service, activity, event, name, fields, &selectors,
    )
}
