//! Whether services are those of a well-formed state.
ghost use Rattle.std.specs.Prelude.{◌≡◌, false};
ghost use Rattle.std.specs.Option.{option_map_or};
ghost use Rattle.deploy_model.specs.Resolving.{deployed_of};
ghost use Rattle.rows_sorted.specs.Keys.{Rises};
ghost use Rattle.router_state.specs.Contexts.{activity_at as activity_so, is_of_service};
ghost use Rattle.router_state.specs.Keys.{activity_key};
ghost use Rattle.router_state.specs.Services.{is_active};
ghost use Rattle.router_state.specs.WellContexts.{are_services, are_services_from, is_activity_of, is_service_row};

use crate::declared::count_services;
use crate::found::activity_at;
use router_state::{AcKind, Activity, Service, ServiceState};
use slee_descriptor::Deployment;

/// Whether the activity is that of the service.
fn is_of_service(service: u64, kind: &AcKind) -> bool
    ensures { result ≡ is_of_service service kind.now }
{
    match kind {
        AcKind::External(_) | AcKind::Null | AcKind::Table(_) => false,
        AcKind::Service(own) => *own as u64 == service,
    }
}

fn is_active(state: ServiceState) -> bool
    ensures { result ≡ is_active state }
{
    match state {
        ServiceState::Active => true,
        ServiceState::Inactive | ServiceState::Stopping => false,
    }
}

/// Whether the activity is one of the service, and not Ending where the service is Active.
fn is_activity_of(number: u64, service: &Service, activity: &Activity) -> bool
    ensures { result ≡ is_activity_of number service.now activity.now }
{
    is_of_service(number, &activity.kind) && !(is_active(service.state) && activity.ending)
}

/// Whether the activity of this number is there, and is one of the service.
fn has_own_activity(activities: &[Activity], number: u64, service: &Service) -> bool
    requires { Rises activity_key activities.now }
    ensures { result ≡ option_map_or (is_activity_of number service.now) (activity_so activities.now service.now.activity.0) false }
{
    match activity_at(activities, service.activity.0) {
        Some(activity) => is_activity_of(number, service, activity),
        None => false,
    }
}

fn is_service_row(activities: &[Activity], number: u64, service: &Service) -> bool
    requires { Rises activity_key activities.now }
    ensures { result ≡ is_service_row activities.now number service.now }
{
    service.activity.0 == 0 || has_own_activity(activities, number, service)
}

/// Whether each service has no activity, or one of its own.
fn are_service_rows(activities: &[Activity], services: &[Service]) -> bool
    requires { Rises activity_key activities.now }
    ensures { result ≡ are_services_from activities.now 0 services.now }
{
    'services: for (number, service) in services.iter().enumerate() {
        if !is_service_row(activities, number as u64, service) {
            return false;
        }
    }
    true
}

/// Whether there are as many services as were deployed, and each passes.
pub fn are_services(deployment: &Deployment, activities: &[Activity], services: &[Service]) -> bool
    requires { Rises activity_key activities.now }
    ensures { result ≡ are_services (deployed_of deployment.now.parts) activities.now services.now }
{
    services.len() == count_services(deployment) && are_service_rows(activities, services)
}
