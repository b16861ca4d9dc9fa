//! Plans in which the head event of an activity is finished.
ghost use Rattle.std.specs.Prelude.{◌≡◌, ◌++◌, ◌∷◌, IfOk, Some};
ghost use Rattle.std.specs.Str.{bytes_eq};
ghost use Rattle.slee_value.specs.Bytes.{spelled_u64};
ghost use Rattle.router_state.specs.Queues.{activity_end, head_event};
ghost use Rattle.trace_history.specs.declared.choice.Choice.TheVariants as choices;
ghost use Rattle.router_plans.specs.Plans.{IsBegun};

use built_in_events::BuiltInEvent;
use router_closing::Closing;
use router_draft::Draft;
use router_payloads::{write_clock, write_finishing};
use router_state::Event;
use router_subjects::finish;
use slee_value::{ActivityId, NoMemory};
use std::alloc::Global;

/// Whether the event ends its activity.
fn is_end(event: &Event) -> bool
    ensures { result ≡ bytes_eq event.now.name activity_end }
{
    event.name.as_bytes() == BuiltInEvent::ActivityEnd.name().as_bytes()
}

/// What the journal keeps of a finish.
fn payload(alloc: Global, clock: u64, activity: ActivityId) -> Result<Vec<u8>, NoMemory>
    ensures { IfOk result (λ bytes. bytes.items ≡ spelled_u64 clock ++ 4 ∷ spelled_u64 activity.0) }
{
    let mut bytes = Vec::new(alloc);
    write_clock(2, clock, &mut bytes)?;
    write_finishing(activity, &mut bytes)?;
    Ok(bytes)
}

/// Plans that the head event of the activity is finished; behind its end the activity goes too (JSR 240, 7.6).
#[tactic(auto, using(crate::proofs::BegunLemmas::finishing_begun))]
pub fn begin_finishing<C: Closing>(
    alloc: Global,
    closing: &C,
    activity: ActivityId,
    event: &Event,
) -> Result<(Draft, Vec<u8>), NoMemory>
    requires { head_event (C.state closing.now).events activity.0 ≡ Some event.now }
    ensures { IfOk result (λ x. IsBegun (C.state closing.now) (choices.Finish activity) x.0 x.1.items) }
{
    let mut draft = Draft::new(alloc);
    finish(
        alloc,
        closing,
        &mut draft,
        activity,
        event.id,
        is_end(event),
    )?;
    let bytes = payload(alloc, closing.clock(), activity)?;
    Ok((draft, bytes))
}
