//! Plans in which a service selects a root for an event.
ghost use Rattle.std.specs.Prelude.{◌≡◌, ◌++◌, ◌∷◌, IfOk, Some};
ghost use Rattle.slee_value.specs.Bytes.{spelled_u64};
ghost use Rattle.deploy_model.specs.Deployed.{service_key};
ghost use Rattle.router_state.specs.Next.{selects_at};
ghost use Rattle.router_steps.specs.Steps.{root_selected};
ghost use Rattle.trace_history.specs.declared.choice.Choice.TheVariants as choices;
ghost use Rattle.router_draft.specs.Drafts.{IsLow};
ghost use Rattle.router_subjects.specs.Roots.{CanSelect, root_in};
ghost use Rattle.router_plans.specs.Plans.{IsBegun};

use router_draft::Draft;
use router_moves::Setting;
use router_payloads::{write_clock, write_selecting};
use router_state::Event;
use router_subjects::{Due, Root, select};
use slee_value::{ActivityId, NoMemory};
use std::alloc::Global;

/// What the journal keeps of a selection.
fn payload(alloc: Global, clock: u64, activity: ActivityId) -> Result<Vec<u8>, NoMemory>
    ensures { IfOk result (λ bytes. bytes.items ≡ spelled_u64 clock ++ 2 ∷ spelled_u64 activity.0) }
{
    let mut bytes = Vec::new(alloc);
    write_clock(2, clock, &mut bytes)?;
    write_selecting(activity, &mut bytes)?;
    Ok(bytes)
}

/// Plans that the service that is due selects this root for the head event of the activity (JSR 240, 8.5).
#[tactic(auto, using(crate::proofs::BegunLemmas::selecting_begun))]
pub fn begin_selecting<S: Setting>(
    alloc: Global,
    setting: &S,
    activity: ActivityId,
    event: &Event,
    service: u32,
    key: &str,
    root: Root,
) -> Result<(Draft, Vec<u8>), NoMemory>
    requires low { IsLow (S.state setting.now) }
    requires due { selects_at (S.state setting.now) activity.0 ≡ Some (event.now, service) }
    requires key { key.now ≡ service_key (S.state setting.now).deployment service }
    requires root { root_in root ≡ root_selected (S.state setting.now) service activity.0 event.now }
    requires can { CanSelect (S.state setting.now) service root }
    ensures { IfOk result (λ x. IsBegun (S.state setting.now) (choices.Initial activity) x.0 x.1.items) }
{
    let mut draft = Draft::new(alloc);
    let due = Due {
        activity,
        event: event.id,
        service,
    };
    select(alloc, setting, &mut draft, due, key, root)?;
    let bytes = payload(alloc, setting.clock(), activity)?;
    Ok((draft, bytes))
}
