//! How the roots of services handle events.
ghost use Rattle.std.specs.Prelude.{◌≡◌, map, option_copied, option_map, find, bytes_eq, slice_get};
ghost use Rattle.deploy_model.specs.Deployed.{block_event, service_at};
ghost use Rattle.deploy_model.specs.Resolving.{deployed_of, handling_of, number_of};
ghost use Rattle.deploy_model.specs.Tables.{key_number};
ghost use Rattle.router_steps.specs.Selection.{root_handling};

use deploy_model::BlockEvent;
use slee_descriptor::Deployment;
use slee_value::Text;

/// How the block of the service's root handles the event.
pub(crate) fn root_handler<'d>(
    deployment: &'d Deployment,
    service: u32,
    event: &Text,
) -> Option<&'d BlockEvent>
    ensures { option_map handling_of (option_copied result) ≡ root_handling (deployed_of deployment.now.parts) service event.now }
{
    match root_of(deployment, service) {
        Some(root) => block_handler(deployment, root, event),
        None => None,
    }
}

/// The number of the block of the service's root.
fn root_of(deployment: &Deployment, service: u32) -> Option<u32>
    ensures { result ≡ option_map (λ row. row.root) (service_at (deployed_of deployment.now.parts) service) }
{
    let service = item_at(deployment.services(), service)?;
    Some(block_number(deployment, service.root.as_str()))
}

/// The number of the block of this key.
fn block_number(deployment: &Deployment, key: &str) -> u32
    ensures { result ≡ number_of (key_number (λ b. b.key) deployment.now.parts.blocks) key.now }
{
    match deployment.block_named(key) {
        Some(number) => number,
        None => 0,
    }
}

/// How the block of this number handles the event.
fn block_handler<'d>(deployment: &'d Deployment, block: u32, event: &Text) -> Option<&'d BlockEvent>
    ensures { option_map handling_of (option_copied result) ≡ block_event (deployed_of deployment.now.parts) block event.now }
{
    let block = item_at(deployment.blocks(), block)?;
    handler_among(block.events.as_slice(), event)
}

/// The item of this number.
fn item_at<T>(items: &[T], number: u32) -> Option<&T>
    ensures { option_copied result ≡ slice_get items.now number }
{
    items.get(number as usize)
}

/// The first of these that handles the event.
fn handler_among<'d>(handlers: &'d [BlockEvent], event: &Text) -> Option<&'d BlockEvent>
    ensures { option_copied result ≡ find (λ h. bytes_eq h.event event.now) handlers.now }
{
    handlers
        .iter()
        .find(|handler| handler.event.as_str() == event.as_str())
}
