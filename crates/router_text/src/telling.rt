//! The lines below a heading, each for one thing that happened.
ghost use Rattle.std.specs.Prelude.{◌≡◌, false, IfOk, string_bytes};
ghost use Rattle.slee_value.specs.Escape.{escaped};
ghost use Rattle.script_meaning.specs.Removal.{said};
ghost use Rattle.router_steps.specs.Lines.{attached_line, created_line, detached_line, ending_line, gone_line, queued_line, removed_line, resumed_line, service_line, started_line, suspended_line, timer_line, usage_line};

use crate::line::empty_line;
use slee_value::{ActivityId, EntityId, EventId, NoMemory, Text, TimerId, escape};
use std::alloc::Global;

/// An activity starts, with the words for what it stands for.
pub fn started(alloc: Global, activity: ActivityId, what: &str) -> Result<Text, NoMemory>
    ensures { IfOk result (λ line. line ≡ started_line activity.0 what.now) }
{
    let mut line = empty_line(alloc)?;
    write!(line, "  started a{} {what}", activity.0)?;
    Ok(Text::from(line))
}

/// A service has another state, with its word.
pub fn service(alloc: Global, key: &str, word: &str) -> Result<Text, NoMemory>
    ensures { IfOk result (λ line. line ≡ service_line key.now word.now) }
{
    let mut line = empty_line(alloc)?;
    write!(line, "  service {key} {word}")?;
    Ok(Text::from(line))
}

/// An event waits on an activity.
pub fn queued(
    alloc: Global,
    event: EventId,
    name: &Text,
    activity: ActivityId,
) -> Result<Text, NoMemory>
    ensures { IfOk result (λ line. line ≡ queued_line event.0 name.now activity.0) }
{
    let text = name.as_str();
    let mut line = empty_line(alloc)?;
    write!(line, "  queued v{} {text} a{}", event.0, activity.0)?;
    Ok(Text::from(line))
}

/// An entity is attached to an activity.
pub fn attached(alloc: Global, entity: EntityId, activity: ActivityId) -> Result<Text, NoMemory>
    ensures { IfOk result (λ line. line ≡ attached_line entity.0 activity.0) }
{
    let mut line = empty_line(alloc)?;
    write!(line, "  attached e{} a{}", entity.0, activity.0)?;
    Ok(Text::from(line))
}

/// An entity is attached no longer.
pub fn detached(alloc: Global, entity: EntityId, activity: ActivityId) -> Result<Text, NoMemory>
    ensures { IfOk result (λ line. line ≡ detached_line entity.0 activity.0) }
{
    let mut line = empty_line(alloc)?;
    write!(line, "  detached e{} a{}", entity.0, activity.0)?;
    Ok(Text::from(line))
}

/// An entity has a new child under a relation.
pub fn created(
    alloc: Global,
    entity: EntityId,
    parent: EntityId,
    relation: &Text,
) -> Result<Text, NoMemory>
    ensures { IfOk result (λ line. line ≡ created_line entity.0 parent.0 relation.now) }
{
    let name = relation.as_str();
    let mut line = empty_line(alloc)?;
    write!(line, "  created e{} e{}.{name}", entity.0, parent.0)?;
    Ok(Text::from(line))
}

/// An entity is gone.
pub fn removed(alloc: Global, entity: EntityId) -> Result<Text, NoMemory>
    ensures { IfOk result (λ line. line ≡ removed_line entity.0) }
{
    let mut line = empty_line(alloc)?;
    write!(line, "  removed e{}", entity.0)?;
    Ok(Text::from(line))
}

/// An activity is Ending.
pub fn ending(alloc: Global, activity: ActivityId) -> Result<Text, NoMemory>
    ensures { IfOk result (λ line. line ≡ ending_line activity.0) }
{
    let mut line = empty_line(alloc)?;
    write!(line, "  ending a{}", activity.0)?;
    Ok(Text::from(line))
}

/// An activity is gone.
pub fn gone(alloc: Global, activity: ActivityId) -> Result<Text, NoMemory>
    ensures { IfOk result (λ line. line ≡ gone_line activity.0) }
{
    let mut line = empty_line(alloc)?;
    write!(line, "  gone a{}", activity.0)?;
    Ok(Text::from(line))
}

/// A timer is set.
pub fn timer(alloc: Global, timer: TimerId, activity: ActivityId) -> Result<Text, NoMemory>
    ensures { IfOk result (λ line. line ≡ timer_line timer.0 activity.0) }
{
    let mut line = empty_line(alloc)?;
    write!(line, "  timer t{} a{}", timer.0, activity.0)?;
    Ok(Text::from(line))
}

/// An amount is added to a usage count.
pub fn usage(alloc: Global, entity: EntityId, name: &Text, amount: i64) -> Result<Text, NoMemory>
    ensures { IfOk result (λ line. line ≡ usage_line entity.0 name.now amount) }
{
    let text = name.as_str();
    let mut line = empty_line(alloc)?;
    write!(line, "  usage e{} {text} {amount}", entity.0)?;
    Ok(Text::from(line))
}

/// An activity's head event is suspended.
pub fn suspended(
    alloc: Global,
    event: EventId,
    activity: ActivityId,
    until: u64,
) -> Result<Text, NoMemory>
    ensures { IfOk result (λ line. line ≡ suspended_line event.0 activity.0 until) }
{
    let mut line = empty_line(alloc)?;
    write!(
        line,
        "  suspended v{} a{} until {until}",
        event.0, activity.0
    )?;
    Ok(Text::from(line))
}

/// Its suspension ends.
pub fn resumed(alloc: Global, event: EventId, activity: ActivityId) -> Result<Text, NoMemory>
    ensures { IfOk result (λ line. line ≡ resumed_line event.0 activity.0) }
{
    let mut line = empty_line(alloc)?;
    write!(line, "  resumed v{} a{}", event.0, activity.0)?;
    Ok(Text::from(line))
}

#[tactic(auto, using(crate::proofs::TextLemmas::escaped_is_utf8))]
fn escaped(alloc: Global, text: &Text) -> Result<String, NoMemory>
    ensures { IfOk result (λ s. string_bytes s ≡ escaped false text.now) }
{
    let mut bytes = Vec::new(alloc);
    escape(text.as_bytes(), false, &mut bytes)?;
    Ok(String::from_utf8(bytes).unwrap())
}

/// An entity says a text.
pub fn said(alloc: Global, entity: EntityId, text: &Text) -> Result<Text, NoMemory>
    ensures { IfOk result (λ line. line ≡ said entity text.now) }
{
    let escaped = escaped(alloc, text)?;
    let mut line = empty_line(alloc)?;
    write!(line, "  say e{} {escaped}", entity.0)?;
    Ok(Text::from(line))
}
