//! The eligible entity of least path, found by going through all attachments of the activity.
ghost use Rattle.std.specs.Prelude.{◌≡◌, [], None, filter, option_copied, option_map};
ghost use Rattle.std.specs.List.{cons_option};
ghost use Rattle.router_state.specs.declared.rows.Event.{Event};
ghost use Rattle.router_state.specs.State.{State};
ghost use Rattle.router_state.specs.Trees.{entity_at};
ghost use Rattle.router_state.specs.Paths.{earlier, least_path};
ghost use Rattle.router_state.specs.Next.{first};
ghost use Rattle.router_order.specs.Asked.{IsAbout, entities_of, is_among, is_wanted};

use crate::received::Received;
use crate::wants::{Head, Wants, is_wanted};
use activity_context::Contexts;
use entity_tree::Tree;
use event_mask::Masks;
use router_state::{Entity, Link};
use rows_leaves::Run;
use slee_value::{ActivityId, EntityId};

/// The entity of earlier path, of perhaps one and another.
fn earlier<'a>(tree: &Tree, best: Option<&'a Entity>, row: &'a Entity) -> &'a Entity
    ensures { result.now ≡ earlier tree.now.rows (option_copied best.entry) row.now }
{
    match best {
        Some(found) => {
            if tree.compare(row.number, found.number).is_lt() {
                row
            } else {
                found
            }
        }
        None => row,
    }
}

/// The earlier one of the best so far and this entity, where the entity may receive the event.
#[tactic(auto, using(crate::proofs::NextLemmas::considered_some, crate::proofs::NextLemmas::considered_other))]
fn consider<'a, D: Received>(
    tree: &'a Tree,
    masks: &Masks,
    activity: ActivityId,
    head: &Head<'_>,
    marks: &D,
    best: Option<&'a Entity>,
    entity: EntityId,
) -> Option<&'a Entity>
    ensures { option_copied result ≡ least_path tree.now.rows (option_copied best.entry) (filter (is_wanted tree.now.rows masks.now.rows activity.0 head.now.event.now head.now.blocks.now head.now.target (D.received marks.now activity.0)) (cons_option (entity_at tree.now.rows entity.0) [])) }
{
    match tree.find(entity) {
        Some(row) => {
            if is_wanted(tree, masks, activity, head, marks, row) {
                Some(earlier(tree, best, row))
            } else {
                best
            }
        }
        None => best,
    }
}

/// The entity of least path among those that may receive the event, of the entities of these attachments.
fn least<'a, D: Received>(
    tree: &'a Tree,
    links: Run<'_, Link>,
    masks: &Masks,
    activity: ActivityId,
    head: &Head<'_>,
    marks: &D,
) -> Option<&'a Entity>
    ensures { option_copied result ≡ least_path tree.now.rows None (filter (is_wanted tree.now.rows masks.now.rows activity.0 head.now.event.now head.now.blocks.now head.now.target (D.received marks.now activity.0)) (entities_of tree.now.rows links.entry)) }
{
    let mut best = None;
    'links: for link in links {
        best = consider(tree, masks, activity, head, marks, best, link.entity);
    }
    best
}

fn number_of(row: Option<&Entity>) -> Option<EntityId>
    ensures { result ≡ option_map (λ row. row.number) (option_copied row.entry) }
{
    match row {
        Some(row) => Some(row.number),
        None => None,
    }
}

/// The entity that receives the activity's head event next. All attachments to the activity are looked at.
pub fn next_entity(
    tree: &Tree,
    contexts: &Contexts,
    masks: &Masks,
    activity: ActivityId,
    wants: &Wants<'_>,
) -> Option<EntityId>
    ensures { (s : State) (v : Event) → IsAbout s activity.0 v tree.now.rows masks.now.rows wants.now.event.now wants.now.blocks.now wants.now.target (is_among wants.now.delivered.now) → contexts.now.links ≡ s.links → result ≡ option_map (λ row. row.number) (first s activity.0 v) }
{
    tree.ordered();
    contexts.ordered();
    number_of(least(
        tree,
        contexts.links_on(activity),
        masks,
        activity,
        &wants.head(),
        wants,
    ))
}
