//! The first of some attachments whose entity may receive an event.
ghost use Rattle.std.specs.Prelude.{◌≡◌, find, option_map};
ghost use Rattle.router_order.specs.Asked.{is_wanted, passes};
ghost use Rattle.router_order.specs.Placed.{attachment, attachments};

use crate::placed::Placed;
use crate::received::Received;
use crate::wants::{Head, is_wanted};
use entity_tree::Tree;
use event_mask::Masks;
use rows_leaves::Run;
use slee_value::{ActivityId, EntityId};

fn is_ready<D: Received>(
    tree: &Tree,
    masks: &Masks,
    activity: ActivityId,
    head: &Head<'_>,
    marks: &D,
    row: &Placed,
) -> bool
    ensures { result ≡ passes tree.now.rows (is_wanted tree.now.rows masks.now.rows activity.0 head.now.event.now head.now.blocks.now head.now.target (D.received marks.now activity.0)) (attachment row.now) }
{
    match tree.find(row.entity) {
        Some(entity) => is_wanted(tree, masks, activity, head, marks, entity),
        None => false,
    }
}

/// The entity of the first of these attachments that may receive the event.
pub fn first_ready<D: Received>(
    tree: &Tree,
    run: Run<'_, Placed>,
    masks: &Masks,
    activity: ActivityId,
    head: &Head<'_>,
    marks: &D,
) -> Option<EntityId>
    ensures { result ≡ option_map (λ link. link.entity) (find (passes tree.now.rows (is_wanted tree.now.rows masks.now.rows activity.0 head.now.event.now head.now.blocks.now head.now.target (D.received marks.now activity.0))) (attachments run.entry)) }
{
    'rows: for row in run {
        if is_ready(tree, masks, activity, head, marks, row) {
            return Some(row.entity);
        }
    }
    None
}
