//! The rows of attachments.
ghost use Rattle.std.specs.Prelude.{◌≡◌, ◌++◌, ◌∷◌, [], map, IfOk, OnOk};
ghost use Rattle.router_state.specs.Restoring.{link_of, masks_of};
ghost use Rattle.snapshot_read.specs.Holding.{AreLinkRows};

use crate::parts::LinkPart;
use router_state::{Link, Mask};
use slee_value::{ActivityId, EntityId, NoMemory, Text};
use std::alloc::Global;

/// Attachments, and what is masked on them.
#[derive(Drop)]
pub(crate) struct LinkRows {
    pub(crate) links: Vec<Link>,
    pub(crate) masks: Vec<Mask>,
}

/// Adds the masks of an attachment.
fn add_masks(
    entity: EntityId,
    activity: ActivityId,
    events: Vec<Text>,
    masks: &mut Vec<Mask>,
) -> Result<(), NoMemory>
    ensures { OnOk result (masks.new.items ≡ masks.old.items ++ map (λ event. record { entity = entity; activity = activity; event = event }) events.items) }
{
    'events: for event in events {
        masks.push(Mask {
            entity,
            activity,
            event,
        })?;
    }
    Ok(())
}

/// Adds the rows of an attachment.
fn add_link(part: LinkPart, rows: &mut LinkRows) -> Result<(), NoMemory>
    ensures links { OnOk result (rows.new.links.items ≡ rows.old.links.items ++ link_of part ∷ []) }
    ensures masks { OnOk result (rows.new.masks.items ≡ rows.old.masks.items ++ masks_of part) }
{
    let LinkPart {
        activity,
        entity,
        masks,
    } = part;
    let entity = EntityId(entity);
    let activity = ActivityId(activity);
    rows.links.push(Link { entity, activity })?;
    add_masks(entity, activity, masks, &mut rows.masks)
}

/// The rows of attachments, in their order.
pub(crate) fn link_rows(alloc: Global, parts: Vec<LinkPart>) -> Result<LinkRows, NoMemory>
    ensures { IfOk result (AreLinkRows parts.items) }
{
    let mut rows = LinkRows {
        links: Vec::with_capacity(alloc, parts.len())?,
        masks: Vec::new(alloc),
    };
    'parts: for part in parts {
        add_link(part, &mut rows)?;
    }
    Ok(rows)
}
