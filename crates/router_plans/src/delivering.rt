//! Plans in which an entity receives an event.
ghost use Rattle.std.specs.Prelude.{◌≡◌, ◌++◌, ◌∷◌, IfOk, OnOk, Some};
ghost use Rattle.slee_value.specs.Bytes.{spelled_u64};
ghost use Rattle.slee_effect.specs.Bytes.{spelling_of_effects};
ghost use Rattle.slee_effect.specs.Fitting.{FitEffects};
ghost use Rattle.router_steps.specs.Outcomes.{outcome_byte};
ghost use Rattle.router_steps.specs.Steps.{delivery_at};
ghost use Rattle.trace_history.specs.declared.choice.Choice.TheVariants as choices;
ghost use Rattle.router_draft.specs.Drafts.{IsLow};
ghost use Rattle.router_plans.specs.Plans.{IsBegun};
ghost use Rattle.router_plans.specs.Deliveries.{IsReceived};

use rollback_calls::Delivered;
use router_draft::Draft;
use router_moves::Setting;
use router_payloads::{write_clock, write_delivering};
use router_subjects::{Receipt, deliver};
use slee_value::{ActivityId, NoMemory};
use std::alloc::Global;

/// What the journal keeps of a delivery.
fn payload(
    alloc: Global,
    clock: u64,
    activity: ActivityId,
    delivered: &Delivered,
) -> Result<Vec<u8>, NoMemory>
    ensures bytes { IfOk result (λ bytes. bytes.items ≡ spelled_u64 clock ++ 3 ∷ (spelled_u64 activity.0 ++ outcome_byte delivered.now.outcome ∷ spelling_of_effects delivered.now.effects)) }
    ensures fit { OnOk result (FitEffects delivered.now.effects) }
{
    let mut bytes = Vec::new(alloc);
    write_clock(2, clock, &mut bytes)?;
    write_delivering(
        activity,
        delivered.outcome,
        delivered.effects.as_slice(),
        &mut bytes,
    )?;
    Ok(bytes)
}

/// Plans that the entity receives the event, and that its handler and its callbacks come to this (JSR 240, 8.4).
pub fn begin_delivering<S: Setting>(
    alloc: Global,
    setting: &S,
    receipt: Receipt,
    delivered: Delivered,
) -> Result<(Draft, Vec<u8>), NoMemory>
    requires low { IsLow (S.state setting.now) }
    requires received { IsReceived (S.state setting.now) receipt delivered }
    ensures { IfOk result (λ x. IsBegun (S.state setting.now) (choices.Deliver receipt.activity) x.0 x.1.items) }
{
    let bytes = payload(alloc, setting.clock(), receipt.activity, &delivered)?;
    let mut draft = Draft::new(alloc);
    deliver(alloc, setting, &mut draft, receipt, delivered)?;
    Ok((draft, bytes))
}
