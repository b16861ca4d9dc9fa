//! The end of every step: what nothing holds any longer goes.
ghost use Rattle.std.specs.Prelude.{IfOk, IsTrue};
ghost use Rattle.router_state.specs.Well.{IsClosed};
ghost use Rattle.router_steps.specs.Histories.{is_choice};
ghost use Rattle.router_steps.specs.Steps.{is_enabled};
ghost use Rattle.router_draft.specs.Drafts.{IsLow};
ghost use Rattle.router_plans.specs.Plans.{IsBegun, IsPlanOf};

use crate::Plan;
use router_closing::{Closing, close};
use router_draft::Draft;
use slee_value::NoMemory;
use std::alloc::Global;
use trace_history::Choice;

/// Plans the end of a step, and hands out the plan: trees of entities in which nothing is attached go, Stopping services
/// without a tree are Inactive, and null activities that aren't in use end (JSR 240, chapters 6, 7 and 9).
pub fn close_plan<C: Closing>(
    alloc: Global,
    closing: &C,
    draft: Draft,
    choice: Choice,
    payload: Vec<u8>,
) -> Result<Plan, NoMemory>
    requires valid { IsTrue (is_choice choice) }
    requires enabled { IsTrue (is_enabled (C.state closing.now) choice) }
    requires closed { IsClosed (C.state closing.now) }
    requires low { IsLow (C.state closing.now) }
    requires begun { IsBegun (C.state closing.now) choice draft payload.items }
    ensures { IfOk result (λ plan. IsPlanOf (C.state closing.now) choice plan) }
{
    let mut draft = draft;
    closing.ordered();
    close(alloc, closing, &mut draft)?;
    let (changes, lines) = draft.into_parts();
    Ok(Plan::new(choice, changes, lines, payload))
}
