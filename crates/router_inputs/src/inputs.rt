//! What a line does, or the first reason for which it is refused.
ghost use Rattle.std.specs.Prelude.{◌≡◌, IfOk, Ok};
ghost use Rattle.deploy_model.specs.Resolving.{deployed_of};
ghost use Rattle.signal_script.specs.declared.signal.Signal.TheVariants as signals;
ghost use Rattle.router_steps.specs.Actions.{action_of};
ghost use Rattle.router_inputs.specs.Acting.{CanTake, answer_in};
ghost use Rattle.router_inputs.specs.InOrder.{AreInOrder};

use crate::Action;
use crate::clock::clocking;
use crate::firing::firing;
use crate::lookups::{has_external, open_activity, table_of_name};
use crate::rows::{adding, removing, updating};
use crate::services::{activating, stopping};
use router_steps::Refusal;
use router_stores::Stores;
use signal_script::{Fields, Signal, Word};
use slee_descriptor::Deployment;
use slee_value::{Name, NoMemory};
use std::alloc::Global;

/// An external activity starts.
fn starting(
    alloc: Global,
    stores: &Stores,
    name: &Name,
) -> Result<Result<Action, Refusal>, NoMemory>
    ensures { IfOk result (λ answer. answer_in answer ≡ action_of stores.now.state (signals.Start name.now)) }
{
    if has_external(stores, name) {
        return Ok(Err(Refusal::Exists));
    }
    let name = name.copy(alloc)?;
    Ok(Ok(Action::StartActivity { name }))
}

/// An external activity ends.
fn ending(stores: &Stores, name: &Name) -> Result<Action, Refusal>
    ensures { answer_in result ≡ action_of stores.now.state (signals.End name.now) }
{
    match open_activity(stores, name) {
        Ok(row) => Ok(Action::EndActivity {
            activity: row.number,
        }),
        Err(why) => Err(why),
    }
}

/// A table gets a row.
fn profile_add(
    alloc: Global,
    stores: &Stores,
    deployment: &Deployment,
    table: &Name,
    row: &Word,
    words: &Fields,
) -> Result<Result<Action, Refusal>, NoMemory>
    requires deployed { deployed_of deployment.now.parts ≡ stores.now.state.deployment }
    requires order { AreInOrder (deployed_of deployment.now.parts) }
    ensures { IfOk result (λ answer. answer_in answer ≡ action_of stores.now.state (signals.ProfileAdd table.now row.now words.now)) }
{
    match table_of_name(stores, deployment, table) {
        Ok(table) => adding(alloc, stores, deployment, table, row, words),
        Err(why) => Ok(Err(why)),
    }
}

/// A row gets other attributes.
fn profile_update(
    alloc: Global,
    stores: &Stores,
    deployment: &Deployment,
    table: &Name,
    row: &Word,
    words: &Fields,
) -> Result<Result<Action, Refusal>, NoMemory>
    requires deployed { deployed_of deployment.now.parts ≡ stores.now.state.deployment }
    requires order { AreInOrder (deployed_of deployment.now.parts) }
    ensures { IfOk result (λ answer. answer_in answer ≡ action_of stores.now.state (signals.ProfileUpdate table.now row.now words.now)) }
{
    match table_of_name(stores, deployment, table) {
        Ok(table) => updating(alloc, stores, deployment, table, row, words),
        Err(why) => Ok(Err(why)),
    }
}

/// A row goes.
fn profile_remove(
    alloc: Global,
    stores: &Stores,
    deployment: &Deployment,
    table: &Name,
    row: &Word,
) -> Result<Result<Action, Refusal>, NoMemory>
    requires { deployed_of deployment.now.parts ≡ stores.now.state.deployment }
    ensures { IfOk result (λ answer. answer_in answer ≡ action_of stores.now.state (signals.ProfileRemove table.now row.now)) }
{
    match table_of_name(stores, deployment, table) {
        Ok(table) => removing(alloc, stores, table, row),
        Err(why) => Ok(Err(why)),
    }
}

fn looked_up(
    alloc: Global,
    stores: &Stores,
    deployment: &Deployment,
    signal: &Signal,
) -> Result<Result<Action, Refusal>, NoMemory>
    requires deployed { deployed_of deployment.now.parts ≡ stores.now.state.deployment }
    requires order { AreInOrder (deployed_of deployment.now.parts) }
    ensures { IfOk result (λ answer. answer_in answer ≡ action_of stores.now.state signal.now) }
{
    match signal {
        Signal::Start { name } => starting(alloc, stores, name),
        Signal::End { name } => Ok(ending(stores, name)),
        Signal::Fire {
            name,
            event,
            service,
            fields,
        } => firing(alloc, stores, deployment, name, event, service, fields),
        Signal::Clock { to } => clocking(alloc, stores, *to),
        Signal::Activate { service } => Ok(activating(stores, deployment, service)),
        Signal::Deactivate { service } => Ok(stopping(stores, deployment, service)),
        Signal::ProfileAdd { table, row, fields } => {
            profile_add(alloc, stores, deployment, table, row, fields)
        }
        Signal::ProfileUpdate { table, row, fields } => {
            profile_update(alloc, stores, deployment, table, row, fields)
        }
        Signal::ProfileRemove { table, row } => {
            profile_remove(alloc, stores, deployment, table, row)
        }
    }
}

/// What the line does, or the first reason for which it is refused. All that it names is looked up once.
#[tactic(auto, using(crate::proofs::ActingLemmas::acts))]
pub fn action_of(
    alloc: Global,
    stores: &Stores,
    deployment: &Deployment,
    signal: &Signal,
) -> Result<Result<Action, Refusal>, NoMemory>
    requires deployed { deployed_of deployment.now.parts ≡ stores.now.state.deployment }
    requires order { AreInOrder (deployed_of deployment.now.parts) }
    ensures answer { IfOk result (λ answer. answer_in answer ≡ action_of stores.now.state signal.now) }
    ensures can { IfOk result (λ answer. CanTake (answer_in answer) stores.now.state) }
{
    stores.ordered();
    looked_up(alloc, stores, deployment, signal)
}
