//! Initial selections: the service that is due, and the root that the head event selects for it (JSR 240, 8.5).
ghost use Rattle.std.specs.Prelude.{◌≡◌, Some, IfOk, IsSome, map, option_copied, option_map, slice_get};
ghost use Rattle.deploy_model.specs.Deployed.{service_at};
ghost use Rattle.deploy_model.specs.Resolving.{deployed_of, number_of};
ghost use Rattle.deploy_model.specs.Tables.{key_number};
ghost use Rattle.router_state.specs.Next.{due_service};
ghost use Rattle.router_steps.specs.Selection.{root_named};
ghost use Rattle.router_steps.specs.Steps.{root_by_name, root_selected};
ghost use Rattle.router_subjects.specs.Roots.{CanSelect, root_in};

use crate::State;
use deploy_model::Service;
use initial_select::{Selection, Selectors, convergence};
use router_state::Event;
use router_subjects::Root;
use slee_descriptor::Deployment;
use slee_value::{ActivityId, ConvName, NoMemory};
use std::alloc::Global;

/// The item of this number.
fn item_at<T>(items: &[T], number: u32) -> Option<&T>
    ensures { option_copied result ≡ slice_get items.now number }
{
    items.get(number as usize)
}

/// The number of the block of this key.
fn block_number(deployment: &Deployment, key: &str) -> u32
    ensures { result ≡ number_of (key_number (λ b. b.key) deployment.now.parts.blocks) key.now }
{
    match deployment.block_named(key) {
        Some(number) => number,
        None => 0,
    }
}

fn priority_of(service: &Service) -> i8
    ensures { result ≡ service.now.priority }
{
    service.priority
}

/// The block and the priority of a new root of the service.
fn root_row(deployment: &Deployment, service: u32) -> Option<(u32, i8)>
    ensures { result ≡ option_map (λ row. (row.root, row.priority)) (service_at (deployed_of deployment.now.parts) service) }
{
    let row = item_at(deployment.services(), service)?;
    let block = block_number(deployment, row.root.as_str());
    Some((block, priority_of(row)))
}

impl State {
    /// The service that is due for the head event, where one is.
    #[tactic(auto, using(crate::proofs::NextLemmas::service_found))]
    pub(crate) fn due(&self, deployment: &Deployment, activity: ActivityId, event: &Event) -> u32
        requires deployed { deployed_of deployment.now.parts ≡ self.now.state.deployment }
        requires there { IsSome (due_service self.now.state activity.0 event.now) }
        ensures { due_service self.now.state activity.0 event.now ≡ Some result }
    {
        match router_choice::due_service(&self.stores, deployment, activity, event) {
            Some(service) => service,
            None => unreachable!(),
        }
    }

    /// The root of the service that has the convergence name: an old one, or a new one.
    #[tactic(auto, using(crate::proofs::SelectLemmas::old_root, crate::proofs::SelectLemmas::old_there, crate::proofs::SelectLemmas::new_root, crate::proofs::SelectLemmas::row_there, crate::proofs::SelectLemmas::row_missing))]
    fn root_by_name(&self, deployment: &Deployment, service: u32, name: ConvName) -> Root
        requires deployed { deployed_of deployment.now.parts ≡ self.now.state.deployment }
        requires there { IsSome (service_at self.now.state.deployment service) }
        ensures root { root_in result ≡ root_by_name (root_named self.now.state service name) name }
        ensures can { CanSelect self.now.state service result }
    {
        if let Some(entity) = self.roots.root_named(&self.stores, service, &name) {
            return Root::Old(entity);
        }
        match root_row(deployment, service) {
            Some((block, priority)) => Root::New {
                block,
                priority,
                name,
            },
            None => unreachable!(),
        }
    }

    /// The root that the event selects for the service.
    #[tactic(auto, using(crate::proofs::SelectLemmas::selects_none, crate::proofs::SelectLemmas::selects_named, crate::proofs::SelectLemmas::service_there))]
    pub(crate) fn root_for(
        &self,
        alloc: Global,
        deployment: &Deployment,
        service: u32,
        activity: ActivityId,
        event: &Event,
        selectors: &Selectors,
    ) -> Result<Root, NoMemory>
        requires { deployed_of deployment.now.parts ≡ self.now.state.deployment }
        ensures root { IfOk result (λ root. root_in root ≡ root_selected self.now.state service activity.0 event.now) }
        ensures can { IfOk result (λ root. CanSelect self.now.state service root) }
    {
        match convergence(
            alloc,
            deployment,
            service,
            activity,
            event.id,
            &event.name,
            &event.fields,
            selectors,
        )? {
            Selection::NotInitial => Ok(Root::NotInitial),
            Selection::Named(name) => Ok(self.root_by_name(deployment, service, name)),
        }
    }
}
