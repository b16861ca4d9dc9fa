//! The keys of what a deployment has under a number.
ghost use Rattle.std.specs.Prelude.{◌≡◌};
ghost use Rattle.deploy_model.specs.Deployed.{block_key, service_key, table_name};
ghost use Rattle.deploy_model.specs.Resolving.{deployed_of};

use slee_descriptor::Deployment;

/// The key of the service of this number, empty where there is none.
#[tactic(auto, using(crate::proofs::KeyLemmas::service_key_is))]
pub fn service_key(deployment: &Deployment, service: usize) -> &str
    ensures { result.now ≡ service_key (deployed_of deployment.now.parts) service }
{
    match deployment.services().get(service) {
        Some(found) => found.key.as_str(),
        None => "",
    }
}

/// The key of the block of this number, empty where there is none.
#[tactic(auto, using(crate::proofs::KeyLemmas::block_key_is))]
pub fn block_key(deployment: &Deployment, block: usize) -> &str
    ensures { result.now ≡ block_key (deployed_of deployment.now.parts) block }
{
    match deployment.blocks().get(block) {
        Some(found) => found.key.as_str(),
        None => "",
    }
}

/// The name of the table of this number, empty where there is none.
#[tactic(auto, using(crate::proofs::KeyLemmas::table_name_is))]
pub fn table_name(deployment: &Deployment, table: usize) -> &str
    ensures { result.now ≡ table_name (deployed_of deployment.now.parts) table }
{
    match deployment.tables().get(table) {
        Some(found) => found.name.as_str(),
        None => "",
    }
}
