//! Head events are suspended, and suspensions end.
ghost use Rattle.std.specs.Prelude.{◌≡◌, ◌++◌, OnOk};
ghost use Rattle.router_state.specs.Changes.{after_change};
ghost use Rattle.router_state.specs.declared.change.Change.TheVariants as changes;
ghost use Rattle.router_steps.specs.Effects.{lines_of_suspended};
ghost use Rattle.router_steps.specs.Moves.{resumed, lines_of_resumed};
ghost use Rattle.router_draft.specs.Drafts.{laid, CanBeMade};

use router_draft::{Base, Draft, change, reading};
use router_state::Change;
use slee_value::{ActivityId, NoMemory};
use std::alloc::Global;

/// The line of a suspension, which names the head event.
#[tactic(auto, using(crate::proofs::ResumingLemmas::suspended_some, crate::proofs::ResumingLemmas::suspended_none))]
fn tell_suspended<B: Base>(
    alloc: Global,
    base: &B,
    draft: &mut Draft,
    activity: ActivityId,
    until: u64,
) -> Result<(), NoMemory>
    ensures changes { OnOk result (draft.new.changes ≡ draft.old.changes) }
    ensures lines { OnOk result (draft.new.lines ≡ draft.old.lines ++ lines_of_suspended (laid (B.state base.now) draft.old) activity.0 until) }
{
    match reading::head(alloc, base, draft, activity)? {
        Some(event) => {
            draft.tell(&router_text::suspended(alloc, event, activity, until)?)?;
            Ok(())
        }
        None => Ok(()),
    }
}

/// The activity's head event is suspended until this moment.
pub fn suspend<B: Base>(
    alloc: Global,
    base: &B,
    draft: &mut Draft,
    activity: ActivityId,
    until: u64,
) -> Result<(), NoMemory>
    requires made { CanBeMade (B.state base.now) draft.old }
    ensures state { OnOk result (laid (B.state base.now) draft.new ≡ after_change (changes.Hold activity until) (laid (B.state base.now) draft.old)) }
    ensures lines { OnOk result (draft.new.lines ≡ draft.old.lines ++ lines_of_suspended (laid (B.state base.now) draft.old) activity.0 until) }
    ensures made { OnOk result (CanBeMade (B.state base.now) draft.new) }
{
    tell_suspended(alloc, base, draft, activity, until)?;
    change(base, draft, Change::Hold { activity, until })?;
    Ok(())
}

/// The line of a suspension that ends, where there is one.
#[tactic(auto, using(crate::proofs::ResumingLemmas::resumed_some, crate::proofs::ResumingLemmas::resumed_none, crate::proofs::ResumingLemmas::resumed_off))]
fn tell_resumed<B: Base>(
    alloc: Global,
    base: &B,
    draft: &mut Draft,
    activity: ActivityId,
) -> Result<(), NoMemory>
    ensures changes { OnOk result (draft.new.changes ≡ draft.old.changes) }
    ensures lines { OnOk result (draft.new.lines ≡ draft.old.lines ++ lines_of_resumed (laid (B.state base.now) draft.old) activity.0) }
{
    if !reading::is_suspended(base, draft, activity) {
        return Ok(());
    }
    match reading::head(alloc, base, draft, activity)? {
        Some(event) => {
            draft.tell(&router_text::resumed(alloc, event, activity)?)?;
            Ok(())
        }
        None => Ok(()),
    }
}

/// The suspension of the activity's head event ends, where there is one.
pub fn resume<B: Base>(
    alloc: Global,
    base: &B,
    draft: &mut Draft,
    activity: ActivityId,
) -> Result<(), NoMemory>
    requires made { CanBeMade (B.state base.now) draft.old }
    ensures state { OnOk result (laid (B.state base.now) draft.new ≡ resumed (laid (B.state base.now) draft.old) activity.0) }
    ensures lines { OnOk result (draft.new.lines ≡ draft.old.lines ++ lines_of_resumed (laid (B.state base.now) draft.old) activity.0) }
    ensures made { OnOk result (CanBeMade (B.state base.now) draft.new) }
{
    tell_resumed(alloc, base, draft, activity)?;
    change(base, draft, Change::Release { activity })?;
    Ok(())
}
