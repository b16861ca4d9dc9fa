//! Plans of steps.
ghost use Rattle.std.specs.Prelude.{◌≡◌, IfOk, IsTrue};
ghost use Rattle.trace_history.specs.declared.choice.Choice.TheVariants as choices;
ghost use Rattle.router_state.specs.Well.{IsClosed};
ghost use Rattle.router_steps.specs.Histories.{is_choice};
ghost use Rattle.router_steps.specs.Steps.{is_enabled};
ghost use Rattle.router_plans.specs.Plans.{IsPlanOf};
ghost use Rattle.router_basis.specs.Deploying.{IsDeployed};
ghost use Rattle.router_core.specs.Choosing.{IsNoInitial};
ghost use Rattle.router_core.specs.Delivering.{Delivers};
ghost use Rattle.router_core.specs.States.{IsOwn};

use crate::{Plan, State};
use initial_select::Selectors;
use rollback_calls::Delivered;
use router_basis::Basis;
use router_inputs::action_of;
use router_plans::{begin_delivering, begin_finishing, begin_selecting, begin_taking, close_plan};
use signal_script::Signal;
use slee_descriptor::Deployment;
use slee_value::{ActivityId, NoMemory};
use std::alloc::Global;
use trace_history::Choice;

impl State {
    /// The state as planning asks of it.
    fn basis<'a>(&'a self, deployment: &'a Deployment) -> Basis<'a>
        requires { IsDeployed deployment.now self.now.state }
        ensures state { result ≡ self.now.state }
        ensures closed { IsClosed self.now.state }
    {
        Basis::new(&self.stores, &self.roots, deployment)
    }

    /// Plans that the line is taken.
    #[tactic(auto, using(crate::proofs::NextLemmas::goes_on))]
    fn plan_input(
        &self,
        alloc: Global,
        deployment: &Deployment,
        signal: Signal,
    ) -> Result<Plan, NoMemory>
        requires own { IsOwn deployment.now self.now.state }
        requires valid { IsTrue (is_choice (choices.Input signal)) }
        requires enabled { IsTrue (is_enabled self.now.state (choices.Input signal)) }
        ensures { IfOk result (λ plan. IsPlanOf self.now.state (choices.Input signal) plan) }
    {
        let basis = self.basis(deployment);
        let answer = action_of(alloc, &self.stores, deployment, &signal)?;
        let (draft, bytes) = begin_taking(alloc, &basis, &signal, answer)?;
        close_plan(alloc, &basis, draft, Choice::Input(signal), bytes)
    }

    /// Plans that the head event of the activity is finished.
    #[tactic(auto, using(crate::proofs::NextLemmas::finish_there, crate::proofs::NextLemmas::goes_on))]
    fn plan_finish(
        &self,
        alloc: Global,
        deployment: &Deployment,
        activity: ActivityId,
    ) -> Result<Plan, NoMemory>
        requires own { IsOwn deployment.now self.now.state }
        requires enabled { IsTrue (is_enabled self.now.state (choices.Finish activity)) }
        ensures { IfOk result (λ plan. IsPlanOf self.now.state (choices.Finish activity) plan) }
    {
        let basis = self.basis(deployment);
        let event = self.head(activity);
        let (draft, bytes) = begin_finishing(alloc, &basis, activity, event)?;
        close_plan(alloc, &basis, draft, Choice::Finish(activity), bytes)
    }

    /// Plans the initial selection that is next on the activity.
    #[tactic(auto, using(crate::proofs::NextLemmas::initial_there, crate::proofs::NextLemmas::service_there, crate::proofs::NextLemmas::selected_there, crate::proofs::NextLemmas::goes_on))]
    pub fn plan_initial(
        &self,
        alloc: Global,
        deployment: &Deployment,
        activity: ActivityId,
        selectors: &Selectors,
    ) -> Result<Plan, NoMemory>
        requires own { IsOwn deployment.now self.now.state }
        requires enabled { IsTrue (is_enabled self.now.state (choices.Initial activity)) }
        ensures { IfOk result (λ plan. IsPlanOf self.now.state (choices.Initial activity) plan) }
    {
        let basis = self.basis(deployment);
        let event = self.head(activity);
        let service = self.due(deployment, activity, event);
        let root = self.root_for(alloc, deployment, service, activity, event, selectors)?;
        let key = basis.key_of(service);
        let (draft, bytes) = begin_selecting(alloc, &basis, activity, event, service, key, root)?;
        close_plan(alloc, &basis, draft, Choice::Initial(activity), bytes)
    }

    /// Plans the delivery that is next on the activity, which comes to this.
    #[tactic(auto, using(crate::proofs::NextLemmas::goes_on, crate::proofs::ReceivedLemmas::received))]
    pub fn plan_delivered(
        &self,
        alloc: Global,
        deployment: &Deployment,
        activity: ActivityId,
        delivered: Delivered,
    ) -> Result<Plan, NoMemory>
        requires own { IsOwn deployment.now self.now.state }
        requires enabled { IsTrue (is_enabled self.now.state (choices.Deliver activity)) }
        requires delivers { Delivers self.now.state activity delivered }
        ensures { IfOk result (λ plan. IsPlanOf self.now.state (choices.Deliver activity) plan) }
    {
        let basis = self.basis(deployment);
        let receipt = self.receipt(deployment, activity);
        let (draft, bytes) = begin_delivering(alloc, &basis, receipt, delivered)?;
        close_plan(alloc, &basis, draft, Choice::Deliver(activity), bytes)
    }

    /// Plans the delivery that is next on the activity.
    fn plan_deliver(
        &self,
        alloc: Global,
        deployment: &Deployment,
        activity: ActivityId,
    ) -> Result<Plan, NoMemory>
        requires own { IsOwn deployment.now self.now.state }
        requires enabled { IsTrue (is_enabled self.now.state (choices.Deliver activity)) }
        ensures { IfOk result (λ plan. IsPlanOf self.now.state (choices.Deliver activity) plan) }
    {
        let delivered = self.next_delivered(alloc, deployment, activity)?;
        self.plan_delivered(alloc, deployment, activity, delivered)
    }

    /// Plans a step that is no initial selection.
    pub fn plan(
        &self,
        alloc: Global,
        deployment: &Deployment,
        choice: Choice,
    ) -> Result<Plan, NoMemory>
        requires own { IsOwn deployment.now self.now.state }
        requires valid { IsTrue (is_choice choice) }
        requires enabled { IsTrue (is_enabled self.now.state choice) }
        requires other { IsNoInitial choice }
        ensures { IfOk result (λ plan. IsPlanOf self.now.state choice plan) }
    {
        match choice {
            Choice::Input(signal) => self.plan_input(alloc, deployment, signal),
            Choice::Initial(_) => unreachable!(),
            Choice::Deliver(activity) => self.plan_deliver(alloc, deployment, activity),
            Choice::Finish(activity) => self.plan_finish(alloc, deployment, activity),
        }
    }
}
