//! Whether an activity is in use after a step's changes so far: by an attachment, a name, a timer or an event.
ghost use Rattle.std.specs.Prelude.{◌≡◌, ◌++◌, ◌==◌, flat_map, IfOk, OnOk};
ghost use Rattle.std.specs.List.{list_any};
ghost use Rattle.router_state.specs.Closed.{is_in_use};
ghost use Rattle.router_state.specs.Contexts.{is_linked, named_at};
ghost use Rattle.router_state.specs.Queues.{is_waiting};
ghost use Rattle.router_steps.specs.Applying.{is_active_null};
ghost use Rattle.router_steps.specs.Closing.{is_idle_at};
ghost use Rattle.router_draft.specs.Drafts.{laid, IsLow};
ghost use Rattle.router_closing.specs.Naming.{name_given, names_given, stands_for};

use crate::Closing;
use crate::timers::has_timer;
use crate::touched::attached_to;
use router_draft::{Base, Draft, reading};
use router_state::Change;
use slee_value::{ActivityId, EntityId, NoMemory, Text};
use std::alloc::Global;

/// Whether one of these entities is attached to the activity.
fn is_one_linked<B: Base>(base: &B, draft: &Draft, entities: &[u64], activity: ActivityId) -> bool
    ensures { result ≡ list_any (λ e. is_linked (laid (B.state base.now) draft.now).links e activity.0) entities.now }
{
    'entities: for entity in entities {
        if reading::is_linked(base, draft, EntityId(*entity), activity) {
            return true;
        }
    }
    false
}

/// Whether an entity is attached to the activity.
#[tactic(auto, using(crate::proofs::UseLemmas::linked_on))]
fn has_link<C: Closing>(
    alloc: Global,
    setting: &C,
    draft: &Draft,
    activity: ActivityId,
) -> Result<bool, NoMemory>
    ensures { IfOk result (λ is. is ≡ list_any (λ l. l.activity.0 == activity.0) (laid (C.state setting.now) draft.now).links) }
{
    let entities = attached_to(alloc, setting, draft.changes(), activity)?;
    Ok(is_one_linked(setting, draft, &entities, activity))
}

/// The name that the change gives to the activity.
fn push_name(
    alloc: Global,
    change: &Change,
    activity: ActivityId,
    all: &mut Vec<Text>,
) -> Result<(), NoMemory>
    ensures { OnOk result (all.new.items ≡ all.old.items ++ name_given activity.0 change.now) }
{
    match change {
        Change::Bind {
            name,
            activity: other,
        } => {
            if other.0 == activity.0 {
                all.push(name.copy(alloc)?)?;
            }
        }
        _ => {}
    }
    Ok(())
}

/// The same of changes.
fn push_names(
    alloc: Global,
    changes: &[Change],
    activity: ActivityId,
    all: &mut Vec<Text>,
) -> Result<(), NoMemory>
    ensures { OnOk result (all.new.items ≡ all.old.items ++ flat_map (name_given activity.0) changes.now) }
{
    'changes: for change in changes {
        push_name(alloc, change, activity, all)?;
    }
    Ok(())
}

/// The names that may stand for the activity after the changes: they did before the step, or a change gives them to it.
fn names_given<C: Closing>(
    alloc: Global,
    setting: &C,
    changes: &[Change],
    activity: ActivityId,
) -> Result<Vec<Text>, NoMemory>
    ensures { IfOk result (λ all. all.items ≡ names_given (C.state setting.now) changes.now activity.0) }
{
    let mut all = setting.names(alloc, activity)?;
    push_names(alloc, changes, activity, &mut all)?;
    Ok(all)
}

/// Whether the name stands for the activity.
fn stands_for<B: Base>(base: &B, draft: &Draft, name: &Text, activity: ActivityId) -> bool
    ensures { result ≡ stands_for activity.0 (named_at (laid (B.state base.now) draft.now).names name.now) }
{
    match reading::named(base, draft, name) {
        Some(other) => other.0 == activity.0,
        None => false,
    }
}

/// Whether one of these names does.
fn does_one_stand_for<B: Base>(
    base: &B,
    draft: &Draft,
    names: &[Text],
    activity: ActivityId,
) -> bool
    ensures { result ≡ list_any (λ name. stands_for activity.0 (named_at (laid (B.state base.now) draft.now).names name)) names.now }
{
    'names: for name in names {
        if stands_for(base, draft, name, activity) {
            return true;
        }
    }
    false
}

/// Whether a name stands for the activity.
#[tactic(auto, using(crate::proofs::UseLemmas::named_as))]
fn has_name<C: Closing>(
    alloc: Global,
    setting: &C,
    draft: &Draft,
    activity: ActivityId,
) -> Result<bool, NoMemory>
    ensures { IfOk result (λ is. is ≡ list_any (λ row. row.activity.0 == activity.0) (laid (C.state setting.now) draft.now).names) }
{
    setting.ordered();
    let names = names_given(alloc, setting, draft.changes(), activity)?;
    Ok(does_one_stand_for(setting, draft, &names, activity))
}

/// Whether an event waits on the activity.
#[tactic(auto, using(crate::proofs::UseLemmas::waiting_is))]
fn has_event<B: Base>(
    alloc: Global,
    base: &B,
    draft: &Draft,
    activity: ActivityId,
) -> Result<bool, NoMemory>
    ensures { IfOk result (λ is. is ≡ is_waiting (laid (B.state base.now) draft.now).events activity.0) }
{
    let head = reading::head(alloc, base, draft, activity)?;
    Ok(head.is_some())
}

/// Whether the activity has an attachment, a name, a timer or an event.
fn is_in_use<C: Closing>(
    alloc: Global,
    setting: &C,
    draft: &Draft,
    activity: ActivityId,
) -> Result<bool, NoMemory>
    requires { IsLow (C.state setting.now) }
    ensures { IfOk result (λ is. is ≡ is_in_use (laid (C.state setting.now) draft.now).links (laid (C.state setting.now) draft.now).names (laid (C.state setting.now) draft.now).timers (laid (C.state setting.now) draft.now).events activity.0) }
{
    if has_event(alloc, setting, draft, activity)? {
        return Ok(true);
    }
    if has_link(alloc, setting, draft, activity)? {
        return Ok(true);
    }
    if has_name(alloc, setting, draft, activity)? {
        return Ok(true);
    }
    has_timer(alloc, setting, draft, activity)
}

/// Whether the activity is an Active null activity.
#[tactic(auto, using(crate::proofs::IdleLemmas::active_null))]
fn is_active_null<B: Base>(base: &B, draft: &Draft, activity: ActivityId) -> bool
    ensures { result ≡ is_active_null (laid (B.state base.now) draft.now) activity.0 }
{
    match reading::activity(base, draft, activity) {
        Some((null, ending)) => null && !ending,
        None => false,
    }
}

/// Whether the activity is an Active null activity that isn't in use.
#[tactic(auto, using(crate::proofs::IdleLemmas::idle_is, crate::proofs::IdleLemmas::idle_isnt))]
pub fn is_idle<C: Closing>(
    alloc: Global,
    setting: &C,
    draft: &Draft,
    activity: ActivityId,
) -> Result<bool, NoMemory>
    requires { IsLow (C.state setting.now) }
    ensures { IfOk result (λ is. is ≡ is_idle_at (laid (C.state setting.now) draft.now) activity.0) }
{
    if !is_active_null(setting, draft, activity) {
        return Ok(false);
    }
    let used = is_in_use(alloc, setting, draft, activity)?;
    Ok(!used)
}
