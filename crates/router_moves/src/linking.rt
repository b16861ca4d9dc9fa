//! Attachments come and go (JSR 240, 7.4).
ghost use Rattle.std.specs.Prelude.{◌≡◌, ◌++◌, IfOk, OnOk, IsTrue};
ghost use Rattle.router_state.specs.Fitting.{has_entity};
ghost use Rattle.router_steps.specs.Moves.{attached, lines_of_attached, detached, lines_of_detached, first_masks};
ghost use Rattle.router_draft.specs.Drafts.{laid, CanBeMade};

use crate::Setting;
use router_draft::{Draft, change, reading};
use router_state::Change;
use slee_value::{ActivityId, EntityId, Names, NoMemory};
use std::alloc::Global;

/// The events that an entity masks where it is attached.
#[tactic(auto, using(crate::proofs::LinkLemmas::masks_found, crate::proofs::LinkLemmas::masks_absent))]
fn first_masks<S: Setting>(
    alloc: Global,
    setting: &S,
    draft: &Draft,
    entity: EntityId,
) -> Result<Names, NoMemory>
    ensures { IfOk result (λ names. names ≡ first_masks (laid (S.state setting.now) draft.now) entity.0) }
{
    match reading::block(setting, draft, entity) {
        Some(block) => setting.masked_on_attach(alloc, block),
        None => Ok(Names::new(alloc)),
    }
}

/// The entity is attached to the activity, with its masks, where it wasn't before.
pub fn attach<S: Setting>(
    alloc: Global,
    setting: &S,
    draft: &mut Draft,
    entity: EntityId,
    activity: ActivityId,
) -> Result<(), NoMemory>
    requires made { CanBeMade (S.state setting.now) draft.old }
    requires there { IsTrue (has_entity (laid (S.state setting.now) draft.old).entities entity.0) }
    ensures state { OnOk result (laid (S.state setting.now) draft.new ≡ attached (laid (S.state setting.now) draft.old) entity.0 activity.0) }
    ensures lines { OnOk result (draft.new.lines ≡ draft.old.lines ++ lines_of_attached (laid (S.state setting.now) draft.old) entity.0 activity.0) }
    ensures made { OnOk result (CanBeMade (S.state setting.now) draft.new) }
{
    if reading::is_linked(setting, draft, entity, activity) {
        return Ok(());
    }
    let names = first_masks(alloc, setting, draft, entity)?;
    change(setting, draft, Change::Attach { entity, activity })?;
    change(
        setting,
        draft,
        Change::MaskOnAttach {
            entity,
            activity,
            names,
        },
    )?;
    draft.tell(&router_text::attached(alloc, entity, activity)?)?;
    Ok(())
}

/// The line of an attachment that goes, where it is there.
fn tell_detached<S: Setting>(
    alloc: Global,
    setting: &S,
    draft: &mut Draft,
    entity: EntityId,
    activity: ActivityId,
) -> Result<(), NoMemory>
    ensures changes { OnOk result (draft.new.changes ≡ draft.old.changes) }
    ensures lines { OnOk result (draft.new.lines ≡ draft.old.lines ++ lines_of_detached (laid (S.state setting.now) draft.old) entity.0 activity.0) }
{
    if reading::is_linked(setting, draft, entity, activity) {
        draft.tell(&router_text::detached(alloc, entity, activity)?)?;
    }
    Ok(())
}

/// The entity isn't attached to the activity, and has no masks there.
pub fn detach<S: Setting>(
    alloc: Global,
    setting: &S,
    draft: &mut Draft,
    entity: EntityId,
    activity: ActivityId,
) -> Result<(), NoMemory>
    requires made { CanBeMade (S.state setting.now) draft.old }
    ensures state { OnOk result (laid (S.state setting.now) draft.new ≡ detached (laid (S.state setting.now) draft.old) entity.0 activity.0) }
    ensures lines { OnOk result (draft.new.lines ≡ draft.old.lines ++ lines_of_detached (laid (S.state setting.now) draft.old) entity.0 activity.0) }
    ensures made { OnOk result (CanBeMade (S.state setting.now) draft.new) }
{
    tell_detached(alloc, setting, draft, entity, activity)?;
    change(setting, draft, Change::Detach { entity, activity })?;
    change(setting, draft, Change::ForgetMasks { entity, activity })?;
    Ok(())
}
