//! The services of the state.
ghost use Rattle.std.specs.Prelude.{◌≡◌, ◌<◌, length, map, IfOk};
ghost use Rattle.router_state.specs.Services.{with_service};
ghost use Rattle.router_stores.specs.Begun.{begins};

use router_state::{Service, ServiceState};
use slee_value::{ActivityId, NoMemory};
use std::alloc::Global;

/// No activity has this number.
const NONE: ActivityId = ActivityId(0);

/// Sets the state and the activity of a service.
pub fn set_service(services: &mut [Service], number: u32, state: ServiceState, activity: ActivityId)
    requires { number < length services.old }
    ensures { services.new ≡ with_service services.old number state activity.0 }
{
    services[number as usize] = Service { state, activity };
}

/// The services as deployed, none of them with an activity.
pub fn services_of(
    alloc: Global,
    deployed: &[deploy_model::Service],
) -> Result<Vec<Service>, NoMemory>
    ensures { IfOk result (λ v. v.items ≡ map begins deployed.now) }
{
    let mut services = Vec::with_capacity(alloc, deployed.len())?;
    for service in deployed {
        let state = if service.active {
            ServiceState::Active
        } else {
            ServiceState::Inactive
        };
        services.push(Service {
            state,
            activity: NONE,
        })?;
    }
    Ok(services)
}
