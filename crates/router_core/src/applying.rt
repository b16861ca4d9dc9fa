//! Steps that are made as they were planned, in memory that was taken before.
ghost use Rattle.std.specs.Prelude.{◌≡◌, OnOk};
ghost use Rattle.router_steps.specs.Steps.{after, step_entry};
ghost use Rattle.router_plans.specs.Plans.{IsPlanOf};
ghost use Rattle.router_core.specs.States.{HasRoomFor, IsOwn};
ghost use Rattle.slee_descriptor.specs.declared.deployment.Deployment.{Deployment};
ghost use Rattle.trace_history.specs.declared.choice.Choice.{Choice};

use crate::{Plan, State};
use router_roots::change_both;
use slee_value::NoMemory;
use trace_history::Entry;

impl State {
    /// Takes the memory for a plan. A plan of this state stays one.
    #[tactic(auto, using(crate::proofs::OwnLemmas::own_plan))]
    pub fn reserve(&mut self, plan: &Plan) -> Result<(), NoMemory>
        ensures kept { self.new.state ≡ self.old.state }
        ensures room { OnOk result (HasRoomFor plan.now self.new) }
        ensures plan { (choice : Choice) → IsPlanOf self.old.state choice plan.now → IsPlanOf self.new.state plan.now.choice plan.now }
    {
        self.stores.reserve(plan.changes())?;
        self.roots.reserve(plan.changes())?;
        Ok(())
    }

    /// Does what was planned of this state, in the room that was made for it, without memory. Hands back the choice with its lines.
    /// The deployment stays the one with which the state was made.
    #[tactic(auto, using(crate::proofs::SteadyLemmas::stays_steady))]
    pub fn apply(&mut self, plan: Plan) -> Entry
        requires made { IsPlanOf self.old.state plan.choice plan }
        requires room { HasRoomFor plan self.old }
        ensures state { self.new.state ≡ after self.old.state plan.choice }
        ensures entry { result ≡ step_entry self.old.state plan.choice }
        ensures own { (d : Deployment) → IsOwn d self.old.state → IsOwn d self.new.state }
    {
        let (choice, changes, lines) = plan.into_parts();
        change_both(&mut self.stores, &mut self.roots, changes);
        Entry { choice, lines }
    }
}
