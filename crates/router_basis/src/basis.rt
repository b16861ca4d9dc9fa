//! The stores, their roots and the deployment, of which planning asks. Contracts see the state.
ghost use Rattle.std.specs.Prelude.{◌≡◌, ◌<◌, ◌^◌, length};
ghost use Rattle.deploy_model.specs.Deployed.{service_key};
ghost use Rattle.router_basis.specs.Deploying.{IsDeployed};
ghost use Rattle.router_roots.specs.Roots.{AreRootsOf};

use router_roots::Roots;
use router_stores::Stores;
use slee_descriptor::Deployment;
use std::marker::Model;

/// The state with which a step begins, its roots, and the deployment with which it was made.
#[derive(Drop)]
pub struct Basis<'a> {
    pub(crate) stores: &'a Stores,
    pub(crate) roots: &'a Roots,
    pub(crate) deployment: &'a Deployment,
}

impl<'a> Model for Basis<'a> {
    ghost use Rattle.std.specs.Coded.{codes};
    ghost use Rattle.script_types.specs.ProgramCode.{term_code, steps_code};
    ghost use Rattle.router_state.specs.State.{State};
    ghost use Rattle.router_basis.specs.Held.{IsBasis};

    ghost Value = { State };

    ghost coded = { Prim.hlevel (codes, term_code (Prim.hlevel codes), steps_code (Prim.hlevel (codes, term_code (Prim.hlevel codes)))) };

    ghost view = { λ b. b.stores.now.state };

    ghost invariant = { IsBasis };
}

impl<'a> Basis<'a> {
    /// These stores with their roots, and the deployment with which they were made.
    pub fn new(stores: &'a Stores, roots: &'a Roots, deployment: &'a Deployment) -> Self
        requires deployed { IsDeployed deployment.now stores.now.state }
        requires roots { AreRootsOf stores.now.state roots.now }
        requires few { length stores.now.state.services < 2 ^ 32 }
        ensures { result ≡ stores.now.state }
    {
        Basis {
            stores,
            roots,
            deployment,
        }
    }

    /// The key of the service, empty where there is none.
    #[tactic(auto, using(crate::proofs::DeployedLemmas::key_is))]
    pub fn key_of(&self, service: u32) -> &str
        ensures { result.now ≡ service_key self.now.deployment service }
    {
        match self.deployment.services().get(service as usize) {
            Some(service) => service.key.as_str(),
            None => "",
        }
    }
}
