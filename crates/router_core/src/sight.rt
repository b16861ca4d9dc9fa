//! The state beside its deployment, as scripts see it. Contracts see the state.
ghost use Rattle.std.specs.Prelude.{◌≡◌};
ghost use Rattle.router_state.specs.Look.{look};
ghost use Rattle.router_basis.specs.Deploying.{IsDeployed};

use crate::State;
use handler_run::View;
use script_meaning::{Key, Seen};
use slee_descriptor::Deployment;
use slee_value::NoMemory;
use std::alloc::Global;
use std::marker::Model;

/// The state, and the deployment with which it was made.
#[derive(Drop)]
pub struct Sight<'a> {
    state: &'a State,
    deployment: &'a Deployment,
}

impl<'a> Model for Sight<'a> {
    ghost use Rattle.std.specs.Coded.{codes};
    ghost use Rattle.script_types.specs.ProgramCode.{term_code, steps_code};
    ghost use Rattle.router_state.specs.State.{State};
    ghost use Rattle.router_basis.specs.Deploying.{IsDeployed};

    ghost Value = { State };

    ghost coded = { Prim.hlevel (codes, term_code (Prim.hlevel codes), steps_code (Prim.hlevel (codes, term_code (Prim.hlevel codes)))) };

    ghost view = { λ s. s.state.now.state };

    ghost invariant = { λ s. IsDeployed s.deployment.now s.state.now.state };
}

impl<'a> Sight<'a> {
    /// This state, and the deployment with which it was made.
    pub fn new(state: &'a State, deployment: &'a Deployment) -> Self
        requires { IsDeployed deployment.now state.now.state }
        ensures { result ≡ state.now.state }
    {
        Sight { state, deployment }
    }
}

impl<'a> View for Sight<'a> {
    ghost seen_at = { λ s. look s };

    fn look(&self, alloc: Global, key: &Key) -> Result<Seen, NoMemory> {
        self.state.look(alloc, self.deployment, key)
    }
}
