//! An activity is gone, with its attachments, their masks, its attributes and its names, and its place in its service (JSR 240, 7.6).
ghost use Rattle.std.specs.Prelude.{◌≡◌, ◌≤◌, ◌<◌, ◌∷◌, [], length, map, OnOk};
ghost use Rattle.router_state.specs.Changes.{after_change, after_changes};
ghost use Rattle.router_state.specs.declared.change.Change.TheVariants as changes;
ghost use Rattle.router_steps.specs.Moves.{changes_of_services, dropped};
ghost use Rattle.router_draft.specs.Drafts.{CanBeMade, laid};
ghost use Rattle.router_subjects.specs.Drops.{forgetting};

use router_closing::Closing;
use router_draft::{Base, Draft, change};
use router_state::{Change, Service};
use slee_value::{ActivityId, EntityId, NoMemory};
use std::alloc::Global;

/// The entities mask nothing on the activity.
fn forget_masks<B: Base>(
    base: &B,
    draft: &mut Draft,
    activity: ActivityId,
    entities: &[u64],
) -> Result<(), NoMemory>
    requires made { CanBeMade (B.state base.now) draft.old }
    ensures state { OnOk result (laid (B.state base.now) draft.new ≡ after_changes (map (forgetting activity) entities.now) (laid (B.state base.now) draft.old)) }
    ensures lines { OnOk result (draft.new.lines ≡ draft.old.lines) }
    ensures made { OnOk result (CanBeMade (B.state base.now) draft.new) }
{
    'entities: for entity in entities {
        let entity = EntityId(*entity);
        change(base, draft, Change::ForgetMasks { entity, activity })?;
    }
    Ok(())
}

/// The service has no activity, where this was its own.
fn leave_service<B: Base>(
    base: &B,
    draft: &mut Draft,
    activity: ActivityId,
    service: u32,
    row: Service,
) -> Result<(), NoMemory>
    requires made { CanBeMade (B.state base.now) draft.old }
    requires there { service < length (laid (B.state base.now) draft.old).services }
    ensures state { OnOk result (laid (B.state base.now) draft.new ≡ after_changes (changes_of_services activity.0 service (row ∷ [])) (laid (B.state base.now) draft.old)) }
    ensures services { OnOk result (length (laid (B.state base.now) draft.new).services ≡ length (laid (B.state base.now) draft.old).services) }
    ensures lines { OnOk result (draft.new.lines ≡ draft.old.lines) }
    ensures made { OnOk result (CanBeMade (B.state base.now) draft.new) }
{
    if row.activity.0 != activity.0 {
        return Ok(());
    }
    change(
        base,
        draft,
        Change::Service {
            service,
            state: row.state,
            activity: ActivityId(0),
        },
    )?;
    Ok(())
}

/// Each service has no activity, where this was its own.
#[tactic(auto, using(crate::proofs::DropLemmas::one_service, crate::proofs::DropLemmas::none_left, crate::proofs::DropLemmas::there_at))]
fn leave_services<C: Closing>(
    closing: &C,
    draft: &mut Draft,
    activity: ActivityId,
) -> Result<(), NoMemory>
    requires made { CanBeMade (C.state closing.now) draft.old }
    requires there { length (C.state closing.now).services ≤ length (laid (C.state closing.now) draft.old).services }
    ensures state { OnOk result (laid (C.state closing.now) draft.new ≡ after_changes (changes_of_services activity.0 0 (C.state closing.now).services) (laid (C.state closing.now) draft.old)) }
    ensures lines { OnOk result (draft.new.lines ≡ draft.old.lines) }
    ensures made { OnOk result (CanBeMade (C.state closing.now) draft.new) }
{
    'services: for service in 0..closing.service_count() {
        match closing.service(service) {
            Some(row) => leave_service(closing, draft, activity, service, row)?,
            None => unreachable!(),
        }
    }
    Ok(())
}

/// The activity is gone, behind its last event.
#[tactic(auto, using(crate::proofs::DropLemmas::services_stay))]
pub fn drop_activity<C: Closing>(
    alloc: Global,
    closing: &C,
    draft: &mut Draft,
    activity: ActivityId,
) -> Result<(), NoMemory>
    requires made { CanBeMade (C.state closing.now) draft.old }
    requires popped { laid (C.state closing.now) draft.old ≡ after_change (changes.Pop activity) (C.state closing.now) }
    ensures state { OnOk result (laid (C.state closing.now) draft.new ≡ dropped (laid (C.state closing.now) draft.old) activity.0) }
    ensures lines { OnOk result (draft.new.lines ≡ draft.old.lines) }
    ensures made { OnOk result (CanBeMade (C.state closing.now) draft.new) }
{
    let entities = closing.attached(alloc, activity)?;
    forget_masks(closing, draft, activity, &entities)?;
    change(closing, draft, Change::DropContext { activity })?;
    leave_services(closing, draft, activity)?;
    Ok(())
}
