//! Headings, without their numbers: one for each choice that was made.
ghost use Rattle.std.specs.Prelude.{◌≡◌, IsTrue, IfOk};
ghost use Rattle.signal_script.specs.Signals.{spelled, is_signal};
ghost use Rattle.router_steps.specs.Lines.{input_heading, initial_heading, initial_none_heading, deliver_heading, finish_heading};

use crate::line::empty_line;
use crate::words::write_outcome;
use script_meaning::Outcome;
use signal_script::{Signal, print_signal};
use slee_value::{ActivityId, EntityId, EventId, NoMemory, Text};
use std::alloc::Global;

/// A line was taken.
#[tactic(auto, using(crate::proofs::TextLemmas::heading_is_utf8))]
pub fn input(alloc: Global, signal: &Signal) -> Result<Text, NoMemory>
    requires { IsTrue (is_signal signal.now) }
    ensures { IfOk result (λ line. line ≡ input_heading (spelled signal.now)) }
{
    let mut bytes = Vec::from_slice(alloc, b"input ")?;
    print_signal(signal, &mut bytes)?;
    Ok(Text::from(String::from_utf8(bytes).unwrap()))
}

/// A service selected a root, which is new or old.
#[tactic(auto, using(crate::proofs::HeadingLemmas::initial_is))]
pub fn initial(
    alloc: Global,
    activity: ActivityId,
    event: EventId,
    service: &str,
    entity: EntityId,
    how: &str,
) -> Result<Text, NoMemory>
    ensures { IfOk result (λ line. line ≡ initial_heading activity.0 event.0 service.now entity.0 how.now) }
{
    let mut line = empty_line(alloc)?;
    write!(
        line,
        "initial a{} v{} {service} e{} {how}",
        activity.0, event.0, entity.0
    )?;
    Ok(Text::from(line))
}

/// A service selected no root.
#[tactic(auto, using(crate::proofs::HeadingLemmas::initial_none_is))]
pub fn initial_none(
    alloc: Global,
    activity: ActivityId,
    event: EventId,
    service: &str,
) -> Result<Text, NoMemory>
    ensures { IfOk result (λ line. line ≡ initial_none_heading activity.0 event.0 service.now) }
{
    let mut line = empty_line(alloc)?;
    write!(line, "initial a{} v{} {service} none", activity.0, event.0)?;
    Ok(Text::from(line))
}

/// An event reached an entity, whose handler ended so.
#[tactic(auto, using(crate::proofs::HeadingLemmas::deliver_is))]
pub fn deliver(
    alloc: Global,
    activity: ActivityId,
    event: EventId,
    entity: EntityId,
    outcome: Outcome,
) -> Result<Text, NoMemory>
    ensures { IfOk result (λ line. line ≡ deliver_heading activity.0 event.0 entity.0 outcome) }
{
    let mut line = empty_line(alloc)?;
    write!(line, "deliver a{} v{} e{} ", activity.0, event.0, entity.0)?;
    write_outcome(&mut line, outcome)?;
    Ok(Text::from(line))
}

/// An event is done.
pub fn finish(alloc: Global, activity: ActivityId, event: EventId) -> Result<Text, NoMemory>
    ensures { IfOk result (λ line. line ≡ finish_heading activity.0 event.0) }
{
    let mut line = empty_line(alloc)?;
    write!(line, "finish a{} v{}", activity.0, event.0)?;
    Ok(Text::from(line))
}
