//! External activities, events, services and tables, found by what a line says.
ghost use Rattle.std.specs.Prelude.{◌≡◌, Ok, Err, is_some, IfOk, IsTrue, MatchResult, option_copied};
ghost use Rattle.deploy_model.specs.Resolving.{deployed_of};
ghost use Rattle.router_state.specs.Contexts.{external};
ghost use Rattle.router_state.specs.Fitting.{has_table};
ghost use Rattle.router_steps.specs.Actions.{declared_event, open_activity, service_of_key, table_of_name, target_of};

use router_state::{Activity, Service};
use router_steps::Refusal;
use router_stores::Stores;
use script_types::EventCode;
use signal_script::Word;
use slee_descriptor::Deployment;
use slee_value::Name;

/// The external activity of this name.
#[tactic(auto, using(crate::proofs::LookupLemmas::external_found, crate::proofs::LookupLemmas::no_external))]
fn external<'a>(stores: &'a Stores, name: &Name) -> Option<&'a Activity>
    ensures { option_copied result ≡ external stores.now.state.activities name.now }
{
    stores.ordered();
    match stores.contexts().external(name) {
        Some(activity) => stores.contexts().find(activity),
        None => None,
    }
}

/// The external activity of this name, which is there and isn't Ending.
pub fn open_activity<'a>(stores: &'a Stores, name: &Name) -> Result<&'a Activity, Refusal>
    ensures { MatchResult result (λ row. open_activity stores.now.state name.now ≡ Ok row.now) (λ why. open_activity stores.now.state name.now ≡ Err why) }
{
    match external(stores, name) {
        None => Err(Refusal::UnknownActivity),
        Some(row) => if row.ending {
            Err(Refusal::Ending)
        } else {
            Ok(row)
        },
    }
}

/// Whether an external activity has this name.
pub fn has_external(stores: &Stores, name: &Name) -> bool
    ensures { result ≡ is_some (external stores.now.state.activities name.now) }
{
    stores.contexts().external(name).is_some()
}

/// The event type that is declared by this name; nobody fires those that are built in.
pub fn declared_event<'a>(
    deployment: &'a Deployment,
    event: &Word,
) -> Result<&'a EventCode, Refusal>
    ensures { MatchResult result (λ declared. declared_event (deployed_of deployment.now.parts) event.now ≡ Ok declared.now) (λ why. declared_event (deployed_of deployment.now.parts) event.now ≡ Err why) }
{
    match deployment.codes().events.find(event.as_bytes()) {
        Some(declared) => Ok(declared),
        None => Err(Refusal::UnknownEvent),
    }
}

/// The number of the service for which an event is, where it is for one alone.
pub fn target_of(deployment: &Deployment, service: &Option<Name>) -> Result<Option<u32>, Refusal>
    ensures { result ≡ target_of (deployed_of deployment.now.parts) service.now }
{
    match service {
        None => Ok(None),
        Some(key) => match deployment.service_named(key.as_str()) {
            Some(number) => Ok(Some(number)),
            None => Err(Refusal::UnknownService),
        },
    }
}

/// The service of this key, with its number.
pub fn service_of_key(
    stores: &Stores,
    deployment: &Deployment,
    key: &Name,
) -> Result<(u32, Service), Refusal>
    requires { deployed_of deployment.now.parts ≡ stores.now.state.deployment }
    ensures { result ≡ service_of_key stores.now.state key.now }
{
    match deployment.service_named(key.as_str()) {
        Some(number) => match stores.services().get(number as usize) {
            Some(row) => Ok((number, *row)),
            None => Err(Refusal::UnknownService),
        },
        None => Err(Refusal::UnknownService),
    }
}

/// The number of the table of this name.
pub fn table_of_name(stores: &Stores, deployment: &Deployment, name: &Name) -> Result<u32, Refusal>
    requires { deployed_of deployment.now.parts ≡ stores.now.state.deployment }
    ensures same { result ≡ table_of_name stores.now.state name.now }
    ensures there { IfOk result (λ n. IsTrue (has_table stores.now.state.deployment n)) }
{
    match deployment.table_named(name.as_str()) {
        Some(number) => Ok(number),
        None => Err(Refusal::UnknownTable),
    }
}
