//! What is asked of an entity that is to receive an event.
ghost use Rattle.std.specs.Prelude.{◌≡◌, ◌==◌};
ghost use Rattle.std.specs.List.{list_any};
ghost use Rattle.router_state.specs.Next.{is_for_tree};
ghost use Rattle.router_order.specs.Asked.{is_wanted};

use crate::received::Received;
use entity_tree::Tree;
use event_mask::Masks;
use router_state::Entity;
use slee_value::{ActivityId, EntityId, Text};

/// The head event of an activity, as far as it decides who receives it.
#[derive(Debug, Clone, Copy)]
pub struct Wants<'a> {
    pub event: &'a Text,
    /// The blocks that handle the event.
    pub blocks: &'a [u32],
    /// The service that alone receives the event, if it has one.
    pub target: Option<u32>,
    /// The entities that have received the event.
    pub delivered: &'a [EntityId],
}

/// The same without the entities that have received the event: who knows them is asked.
#[derive(Debug, Clone, Copy)]
pub struct Head<'a> {
    pub event: &'a Text,
    /// The blocks that handle the event.
    pub blocks: &'a [u32],
    /// The service that alone receives the event, if it has one.
    pub target: Option<u32>,
}

impl<'a> Wants<'a> {
    /// The event without the entities that have received it.
    pub fn head(&self) -> Head<'a>
        ensures { result ≡ record { event = self.now.event; blocks = self.now.blocks; target = self.now.target } }
    {
        Head {
            event: self.event,
            blocks: self.blocks,
            target: self.target,
        }
    }
}

fn has_block(blocks: &[u32], block: u32) -> bool
    ensures { result ≡ list_any (λ other. other == block) blocks.now }
{
    blocks.iter().any(|other| *other == block)
}

fn is_for_tree(tree: &Tree, target: Option<u32>, row: &Entity) -> bool
    ensures { result ≡ is_for_tree tree.now.rows target row.now }
{
    match target {
        Some(service) => match tree.service(row) {
            Some(own) => own == service,
            None => false,
        },
        None => true,
    }
}

/// Whether an entity that is attached to the activity may receive the event.
pub fn is_wanted<D: Received>(
    tree: &Tree,
    masks: &Masks,
    activity: ActivityId,
    head: &Head<'_>,
    marks: &D,
    row: &Entity,
) -> bool
    ensures { result ≡ is_wanted tree.now.rows masks.now.rows activity.0 head.now.event.now head.now.blocks.now head.now.target (D.received marks.now activity.0) row.now }
{
    has_block(head.blocks, row.block)
        && (!masks.is_masked(row.number, activity, head.event)
            && (!marks.has(activity, row.number) && is_for_tree(tree, head.target, row)))
}
