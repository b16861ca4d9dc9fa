//! Plans of any choice.
ghost use Rattle.std.specs.Prelude.{IfOk, IsTrue};
ghost use Rattle.router_core.specs.States.{IsOwn};
ghost use Rattle.router_plans.specs.Plans.{IsPlanOf};
ghost use Rattle.router_steps.specs.Histories.{is_choice};
ghost use Rattle.router_steps.specs.Steps.{is_enabled};

use initial_select::Selectors;
use router_core::{Plan, State};
use slee_descriptor::Deployment;
use slee_value::NoMemory;
use std::alloc::Global;
use trace_history::Choice;

/// What any choice is planned with.
#[derive(Clone, Copy)]
pub(crate) struct Planning<'a> {
    pub alloc: Global,
    pub deployment: &'a Deployment,
    pub selectors: &'a Selectors,
}

/// Plans the step of a choice. An initial selection asks the selectors.
pub(crate) fn plan_any(
    planning: Planning<'_>,
    state: &State,
    choice: Choice,
) -> Result<Plan, NoMemory>
    requires own { IsOwn planning.deployment.now state.now.state }
    requires valid { IsTrue (is_choice choice) }
    requires enabled { IsTrue (is_enabled state.now.state choice) }
    ensures { IfOk result (λ plan. IsPlanOf state.now.state choice plan) }
{
    let Planning {
        alloc,
        deployment,
        selectors,
    } = planning;
    match choice {
        Choice::Input(signal) => state.plan(alloc, deployment, Choice::Input(signal)),
        Choice::Initial(activity) => state.plan_initial(alloc, deployment, activity, selectors),
        Choice::Deliver(activity) => state.plan(alloc, deployment, Choice::Deliver(activity)),
        Choice::Finish(activity) => state.plan(alloc, deployment, Choice::Finish(activity)),
    }
}
