//! The state of the router.
ghost use Rattle.std.specs.Prelude.{◌≡◌, ◌++◌, IfOk, OnOk, map, option_copied, option_map};
ghost use Rattle.deploy_model.specs.Resolving.{deployed_of};
ghost use Rattle.script_types.specs.ProgramOf.{kept_program};
ghost use Rattle.router_state.specs.Initial.{initial};
ghost use Rattle.router_state.specs.Look.{look};
ghost use Rattle.router_state.specs.Next.{least, next};
ghost use Rattle.router_state.specs.Ordered.{IsOrdered};
ghost use Rattle.router_state.specs.Queues.{head_event};
ghost use Rattle.router_state.specs.Show.{show_text};
ghost use Rattle.router_state.specs.State.{is_used_up};
ghost use Rattle.router_state.specs.Trees.{entity_at};
ghost use Rattle.router_steps.specs.Steps.{is_enabled};

use crate::choosing;
use router_roots::Roots;
use router_state::{Event, Kindred};
use router_stores::Stores;
use script_meaning::{Key, Seen};
use slee_descriptor::Deployment;
use slee_value::{ActivityId, EntityId, NoMemory};
use std::alloc::Global;
use std::marker::Model;
use trace_history::Choice;

/// The state of the router, and its roots by service and by convergence name. Nothing in it is left to close, and its services have numbers of 32 bits.
pub struct State {
    pub(crate) stores: Stores,
    pub(crate) roots: Roots,
}

impl Drop for State {
    fn drop(self) {
        let Self {
            stores: _,
            roots: _,
        } = self;
    }
}

impl Model for State {
    ghost use Rattle.std.specs.Coded.{codes};
    ghost use Rattle.script_types.specs.ProgramCode.{term_code, steps_code};
    ghost use Rattle.router_core.specs.Held.{IsKept, held};
    ghost use Rattle.router_core.specs.States.{StateView};

    ghost Value = { StateView };

    ghost coded = { Prim.hlevel (codes, term_code (Prim.hlevel codes), steps_code (Prim.hlevel (codes, term_code (Prim.hlevel codes)))) };

    ghost view = { held };

    ghost invariant = { IsKept };
}

impl State {
    /// The state in which nothing has happened. More services than 32 bits number find no memory.
    pub fn initial(alloc: Global, deployment: &Deployment) -> Result<Self, NoMemory>
        ensures { IfOk result (λ s. s.state ≡ initial (deployed_of deployment.now.parts) (kept_program deployment.now.codes)) }
    {
        if deployment.services().len() >= 1 << 32 {
            return Err(NoMemory);
        }
        let stores = Stores::initial(alloc, deployment)?;
        Ok(State {
            stores,
            roots: Roots::new(alloc),
        })
    }

    /// Passes on that every list rises, and that numbers are below the next ones.
    pub fn ordered(&self)
        ensures { IsOrdered self.now.state }
    {
        self.stores.ordered();
    }

    /// How many lines were taken.
    pub fn inputs(&self) -> u64
        ensures { result ≡ self.now.state.inputs }
    {
        self.stores.inputs()
    }

    /// Whether a count has come too far for another step.
    pub fn used_up(&self) -> bool
        ensures { result ≡ is_used_up self.now.state }
    {
        choosing::is_used_up(&self.stores)
    }

    /// The choice that is next on the activity, if there is one.
    pub fn next(&self, deployment: &Deployment, activity: ActivityId) -> Option<Kindred>
        requires { deployed_of deployment.now.parts ≡ self.now.state.deployment }
        ensures { result ≡ next self.now.state activity.0 }
    {
        router_choice::next(&self.stores, deployment, activity)
    }

    /// The least activity that isn't one of these and has a choice, with that choice.
    pub fn least(
        &self,
        deployment: &Deployment,
        claimed: &[ActivityId],
    ) -> Option<(ActivityId, Kindred)>
        requires { deployed_of deployment.now.parts ≡ self.now.state.deployment }
        ensures { option_map (λ x. (x.0.0, x.1)) result ≡ least self.now.state (map (λ a. a.0) claimed.now) }
    {
        router_choice::least(&self.stores, deployment, claimed)
    }

    /// Whether the choice may be made now.
    pub fn is_enabled(&self, deployment: &Deployment, choice: &Choice) -> bool
        requires { deployed_of deployment.now.parts ≡ self.now.state.deployment }
        ensures { result ≡ is_enabled self.now.state choice.now }
    {
        choosing::is_enabled(&self.stores, deployment, choice)
    }

    /// The head event of the activity.
    pub fn front(&self, activity: ActivityId) -> Option<&Event>
        ensures { option_copied result ≡ head_event self.now.state.events activity.0 }
    {
        self.stores.queues().front(activity)
    }

    /// The number of the entity's block.
    pub fn block(&self, entity: EntityId) -> Option<u32>
        ensures { result ≡ option_map (λ row. row.block) (entity_at self.now.state.entities entity.0) }
    {
        match self.stores.tree().find(entity) {
            Some(row) => Some(row.block),
            None => None,
        }
    }

    /// What is seen at the key. A moment that no script can tell finds no memory.
    pub fn look(&self, alloc: Global, deployment: &Deployment, key: &Key) -> Result<Seen, NoMemory>
        requires { deployed_of deployment.now.parts ≡ self.now.state.deployment }
        ensures { IfOk result (λ s. s ≡ look self.now.state key.now) }
    {
        if self.stores.clock() >= 1 << 63 {
            return Err(NoMemory);
        }
        router_look::look(alloc, &self.stores, deployment, key)
    }

    /// Adds what the show command prints of the state.
    pub fn show(
        &self,
        alloc: Global,
        deployment: &Deployment,
        into: &mut Vec<u8>,
    ) -> Result<(), NoMemory>
        requires { deployed_of deployment.now.parts ≡ self.now.state.deployment }
        ensures { OnOk result (into.new.items ≡ into.old.items ++ show_text self.now.state) }
    {
        router_show::show(alloc, &self.stores, deployment, into)
    }
}
