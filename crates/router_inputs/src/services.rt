//! Services that become Active, and services that stop.
ghost use Rattle.std.specs.Prelude.{◌≡◌};
ghost use Rattle.deploy_model.specs.Resolving.{deployed_of};
ghost use Rattle.signal_script.specs.declared.signal.Signal.TheVariants as signals;
ghost use Rattle.router_steps.specs.Actions.{action_of};
ghost use Rattle.router_inputs.specs.Acting.{answer_in};

use crate::Action;
use crate::lookups::service_of_key;
use router_state::ServiceState;
use router_steps::Refusal;
use router_stores::Stores;
use slee_descriptor::Deployment;
use slee_value::Name;

/// The service becomes Active.
pub fn activating(
    stores: &Stores,
    deployment: &Deployment,
    service: &Name,
) -> Result<Action, Refusal>
    requires { deployed_of deployment.now.parts ≡ stores.now.state.deployment }
    ensures { answer_in result ≡ action_of stores.now.state (signals.Activate service.now) }
{
    match service_of_key(stores, deployment, service) {
        Err(why) => Err(why),
        Ok((service, row)) => match row.state {
            ServiceState::Inactive => Ok(Action::ActivateService { service }),
            ServiceState::Active | ServiceState::Stopping => Err(Refusal::NotInactive),
        },
    }
}

/// The service stops.
pub fn stopping(stores: &Stores, deployment: &Deployment, service: &Name) -> Result<Action, Refusal>
    requires { deployed_of deployment.now.parts ≡ stores.now.state.deployment }
    ensures { answer_in result ≡ action_of stores.now.state (signals.Deactivate service.now) }
{
    match service_of_key(stores, deployment, service) {
        Err(why) => Err(why),
        Ok((service, row)) => match row.state {
            ServiceState::Active => Ok(Action::StopService {
                service,
                activity: row.activity,
            }),
            ServiceState::Inactive | ServiceState::Stopping => Err(Refusal::NotActive),
        },
    }
}
