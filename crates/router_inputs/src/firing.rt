//! Events that lines fire on external activities.
ghost use Rattle.std.specs.Prelude.{◌≡◌, IfOk};
ghost use Rattle.deploy_model.specs.Resolving.{deployed_of};
ghost use Rattle.signal_script.specs.declared.signal.Signal.TheVariants as signals;
ghost use Rattle.router_steps.specs.Actions.{action_of};
ghost use Rattle.router_inputs.specs.Acting.{answer_in};
ghost use Rattle.router_inputs.specs.InOrder.{AreInOrder};

use crate::Action;
use crate::lookups::{declared_event, open_activity, target_of};
use crate::values::fields_given;
use router_steps::Refusal;
use router_stores::Stores;
use signal_script::{Fields, Word};
use slee_descriptor::Deployment;
use slee_value::{Name, NoMemory, Text};
use std::alloc::Global;

/// An event is fired on the external activity of this name.
#[tactic(auto, using(crate::proofs::OrderLemmas::declared_rises))]
pub fn firing(
    alloc: Global,
    stores: &Stores,
    deployment: &Deployment,
    name: &Name,
    event: &Word,
    service: &Option<Name>,
    words: &Fields,
) -> Result<Result<Action, Refusal>, NoMemory>
    requires deployed { deployed_of deployment.now.parts ≡ stores.now.state.deployment }
    requires order { AreInOrder (deployed_of deployment.now.parts) }
    ensures { IfOk result (λ answer. answer_in answer ≡ action_of stores.now.state (signals.Fire name.now event.now service.now words.now)) }
{
    let activity = match open_activity(stores, name) {
        Ok(row) => row.number,
        Err(why) => return Ok(Err(why)),
    };
    let declared = match declared_event(deployment, event) {
        Ok(declared) => declared,
        Err(why) => return Ok(Err(why)),
    };
    let target = match target_of(deployment, service) {
        Ok(target) => target,
        Err(why) => return Ok(Err(why)),
    };
    let fields = match fields_given(alloc, declared.fields.as_slice(), words)? {
        Some(fields) => fields,
        None => return Ok(Err(Refusal::BadFields)),
    };
    let event = Text::from_str(alloc, event.as_str())?;
    Ok(Ok(Action::FireEvent {
        activity,
        event,
        fields,
        target,
    }))
}
