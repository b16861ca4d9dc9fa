//! Events come to wait on activities, and activities end (JSR 240, 7.5 and 7.6).
ghost use Rattle.std.specs.Prelude.{◌≡◌, ◌++◌, ◌∷◌, [], None, OnOk, IfOk, IsTrue};
ghost use Rattle.router_state.specs.Changes.{after_changes};
ghost use Rattle.router_state.specs.Contexts.{is_active};
ghost use Rattle.router_state.specs.Fits.{has_next};
ghost use Rattle.router_state.specs.Queues.{activity_end};
ghost use Rattle.router_state.specs.declared.change.Change.TheVariants as changes;
ghost use Rattle.router_steps.specs.Lines.{ending_line};
ghost use Rattle.router_steps.specs.Moves.{ended, lines_of_ended, queued, lines_of_queued};
ghost use Rattle.router_draft.specs.Drafts.{laid, CanBeMade, IsLow};

use built_in_events::BuiltInEvent;
use router_draft::{Base, Draft, change, reading};
use router_state::{Change, Event};
use slee_value::{ActivityId, EventId, NoMemory, Payload, Text};
use std::alloc::Global;

/// The line of an event that waits, and its number.
#[tactic(auto, using(crate::proofs::QueueLemmas::told_queued))]
fn tell_queued<B: Base>(
    alloc: Global,
    base: &B,
    draft: &mut Draft,
    activity: ActivityId,
    name: &Text,
) -> Result<EventId, NoMemory>
    requires { IsLow (B.state base.now) }
    ensures number { IfOk result (λ id. id.0 ≡ (laid (B.state base.now) draft.old).next_event) }
    ensures more { IfOk result (λ id. IsTrue (has_next (laid (B.state base.now) draft.old).next_event)) }
    ensures changes { OnOk result (draft.new.changes ≡ draft.old.changes) }
    ensures lines { OnOk result (draft.new.lines ≡ draft.old.lines ++ lines_of_queued (laid (B.state base.now) draft.old) activity.0 name.now) }
{
    let id = reading::next_event(base, draft);
    draft.tell(&router_text::queued(alloc, id, name, activity)?)?;
    Ok(id)
}

/// An event with the next number waits last on the activity, for one service alone where there is a target.
pub fn queue<B: Base>(
    alloc: Global,
    base: &B,
    draft: &mut Draft,
    activity: ActivityId,
    name: Text,
    fields: Payload,
    target: Option<u32>,
) -> Result<(), NoMemory>
    requires low { IsLow (B.state base.now) }
    requires made { CanBeMade (B.state base.now) draft.old }
    ensures state { OnOk result (laid (B.state base.now) draft.new ≡ queued (laid (B.state base.now) draft.old) activity.0 name fields target) }
    ensures lines { OnOk result (draft.new.lines ≡ draft.old.lines ++ lines_of_queued (laid (B.state base.now) draft.old) activity.0 name) }
    ensures made { OnOk result (CanBeMade (B.state base.now) draft.new) }
{
    let id = tell_queued(alloc, base, draft, activity, &name)?;
    let event = Event {
        id,
        name,
        fields,
        target,
    };
    change(base, draft, Change::Push { activity, event })?;
    change(base, draft, Change::NextEvent)?;
    Ok(())
}

/// The activity is Ending, and its timers are gone.
fn begin_end<B: Base>(
    alloc: Global,
    base: &B,
    draft: &mut Draft,
    activity: ActivityId,
) -> Result<(), NoMemory>
    requires made { CanBeMade (B.state base.now) draft.old }
    requires active { IsTrue (is_active (laid (B.state base.now) draft.old).activities activity.0) }
    ensures state { OnOk result (laid (B.state base.now) draft.new ≡ after_changes (changes.End activity ∷ changes.CancelAll activity ∷ []) (laid (B.state base.now) draft.old)) }
    ensures lines { OnOk result (draft.new.lines ≡ draft.old.lines ++ ending_line activity.0 ∷ []) }
    ensures made { OnOk result (CanBeMade (B.state base.now) draft.new) }
{
    draft.tell(&router_text::ending(alloc, activity)?)?;
    change(base, draft, Change::End { activity })?;
    change(base, draft, Change::CancelAll { activity })?;
    Ok(())
}

/// The end of the activity waits last on it.
fn queue_end<B: Base>(
    alloc: Global,
    base: &B,
    draft: &mut Draft,
    activity: ActivityId,
) -> Result<(), NoMemory>
    requires low { IsLow (B.state base.now) }
    requires made { CanBeMade (B.state base.now) draft.old }
    ensures state { OnOk result (laid (B.state base.now) draft.new ≡ queued (laid (B.state base.now) draft.old) activity.0 activity_end [] None) }
    ensures lines { OnOk result (draft.new.lines ≡ draft.old.lines ++ lines_of_queued (laid (B.state base.now) draft.old) activity.0 activity_end) }
    ensures made { OnOk result (CanBeMade (B.state base.now) draft.new) }
{
    let name = Text::from_str(alloc, BuiltInEvent::ActivityEnd.name())?;
    let fields = Payload::new(alloc);
    queue(alloc, base, draft, activity, name, fields, None)?;
    Ok(())
}

/// The activity is Ending, its timers are gone, and its end waits last on it.
pub fn end<B: Base>(
    alloc: Global,
    base: &B,
    draft: &mut Draft,
    activity: ActivityId,
) -> Result<(), NoMemory>
    requires low { IsLow (B.state base.now) }
    requires made { CanBeMade (B.state base.now) draft.old }
    requires active { IsTrue (is_active (laid (B.state base.now) draft.old).activities activity.0) }
    ensures state { OnOk result (laid (B.state base.now) draft.new ≡ ended (laid (B.state base.now) draft.old) activity.0) }
    ensures lines { OnOk result (draft.new.lines ≡ draft.old.lines ++ lines_of_ended (laid (B.state base.now) draft.old) activity.0) }
    ensures made { OnOk result (CanBeMade (B.state base.now) draft.new) }
{
    begin_end(alloc, base, draft, activity)?;
    queue_end(alloc, base, draft, activity)?;
    Ok(())
}
