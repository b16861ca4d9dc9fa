//! Finishes: the head event of an activity is gone with its marks, and behind an activity's end the activity goes too (JSR 240, 7.6).
ghost use Rattle.std.specs.Prelude.{◌≡◌, ◌++◌, ◌∷◌, [], if◌then◌else◌, OnOk};
ghost use Rattle.router_state.specs.Changes.{after_change};
ghost use Rattle.router_state.specs.declared.change.Change.TheVariants as changes;
ghost use Rattle.router_steps.specs.Lines.{finish_heading, gone_line};
ghost use Rattle.router_steps.specs.Moves.{dropped};
ghost use Rattle.router_draft.specs.Drafts.{CanBeMade, laid};

use crate::dropping::drop_activity;
use router_closing::Closing;
use router_draft::{Draft, change};
use router_state::Change;
use slee_value::{ActivityId, EventId, NoMemory};
use std::alloc::Global;

/// Behind an activity's end the activity goes too.
fn drop_at_end<C: Closing>(
    alloc: Global,
    closing: &C,
    draft: &mut Draft,
    activity: ActivityId,
    is_end: bool,
) -> Result<(), NoMemory>
    requires made { CanBeMade (C.state closing.now) draft.old }
    requires popped { laid (C.state closing.now) draft.old ≡ after_change (changes.Pop activity) (C.state closing.now) }
    ensures state { OnOk result (laid (C.state closing.now) draft.new ≡ (if is_end then dropped (laid (C.state closing.now) draft.old) activity.0 else laid (C.state closing.now) draft.old)) }
    ensures lines { OnOk result (draft.new.lines ≡ draft.old.lines ++ (if is_end then gone_line activity.0 ∷ [] else [])) }
    ensures made { OnOk result (CanBeMade (C.state closing.now) draft.new) }
{
    if !is_end {
        return Ok(());
    }
    drop_activity(alloc, closing, draft, activity)?;
    draft.tell(&router_text::gone(alloc, activity)?)?;
    Ok(())
}

/// The head event of the activity is gone with its marks, and behind its end the activity goes with it.
#[tactic(auto, using(crate::proofs::DropLemmas::nothing_laid))]
pub fn finish<C: Closing>(
    alloc: Global,
    closing: &C,
    draft: &mut Draft,
    activity: ActivityId,
    event: EventId,
    is_end: bool,
) -> Result<(), NoMemory>
    requires made { CanBeMade (C.state closing.now) draft.old }
    requires begun { draft.old.changes ≡ [] }
    ensures state { OnOk result (laid (C.state closing.now) draft.new ≡ (if is_end then dropped (after_change (changes.Pop activity) (C.state closing.now)) activity.0 else after_change (changes.Pop activity) (C.state closing.now))) }
    ensures lines { OnOk result (draft.new.lines ≡ draft.old.lines ++ finish_heading activity.0 event.0 ∷ (if is_end then gone_line activity.0 ∷ [] else [])) }
    ensures made { OnOk result (CanBeMade (C.state closing.now) draft.new) }
{
    draft.tell(&router_text::finish(alloc, activity, event)?)?;
    change(closing, draft, Change::Pop { activity })?;
    drop_at_end(alloc, closing, draft, activity, is_end)?;
    Ok(())
}
