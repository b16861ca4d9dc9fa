//! The services that each event may begin, in the order in which they select.
ghost use Rattle.std.specs.Prelude.{◌≡◌, IfOk, map};
ghost use Rattle.std.specs.Ordering.{is_lt};
ghost use Rattle.script_tree.specs.Tree.{Bytes};
ghost use Rattle.deploy_model.specs.Resolving.{service_of};
ghost use Rattle.deploy_model.specs.Selecting.{numbered, service_order};
ghost use Rattle.slee_descriptor.specs.ByEvents.{numbers_at};
ghost use Rattle.slee_descriptor.specs.Counting.{begun_by, events_of as events_so};
ghost use Rattle.slee_descriptor.specs.Keys.{number_in};
ghost use Rattle.slee_descriptor.specs.Ranks.{rank_before, rank_of};

use crate::by_event::{ByEvent, Counted};
use crate::keys::{Keys, item_number};
use crate::part_coding::number_of;
use deploy_model::{Block, BlockEvent, Service};
use slee_value::NoMemory;
use std::alloc::Global;
use std::cmp::Ordering;

/// A service in the order of selection: what it is ordered by, and its root's block.
#[derive(Clone, Copy)]
pub(crate) struct Rank {
    priority: i8,
    number: u32,
    root: u32,
}

/// Higher priority first, then as deployed.
fn compare(one: &Rank, other: &Rank) -> Ordering
    ensures { is_lt result ≡ rank_before one.now other.now }
{
    other
        .priority
        .cmp(&one.priority)
        .then(one.number.cmp(&other.number))
}

/// The services as they are deployed.
fn ranks_of(alloc: Global, keys: &Keys, services: &[Service]) -> Result<Vec<Rank>, NoMemory>
    ensures { IfOk result (λ v. v.items ≡ map rank_of (numbered 0 (map (service_of (number_in keys.now)) services.now))) }
{
    let mut ranks = Vec::with_capacity(alloc, services.len())?;
    for (i, service) in services.iter().enumerate() {
        ranks.push(Rank {
            priority: service.priority,
            number: item_number(i)?,
            root: number_of(keys, &service.root),
        })?;
    }
    Ok(ranks)
}

/// The services in the order of selection.
pub(crate) fn order_of(
    alloc: Global,
    keys: &Keys,
    services: &[Service],
) -> Result<Vec<Rank>, NoMemory>
    ensures { IfOk result (λ v. v.items ≡ map rank_of (service_order (map (service_of (number_in keys.now)) services.now))) }
{
    let mut ranks = ranks_of(alloc, keys, services)?;
    ranks.sort_by(|one, other| compare(one, other))?;
    Ok(ranks)
}

/// The events that the block of this number handles.
fn events_of(blocks: &[Block], number: u32) -> &[BlockEvent]
    ensures { result.now ≡ events_so blocks.now number }
{
    match blocks.get(number as usize) {
        Some(block) => block.events.as_slice(),
        None => &[],
    }
}

/// The services, of these in their order, that each event may begin.
pub(crate) fn starters_of(
    alloc: Global,
    blocks: &[Block],
    ranks: &[Rank],
) -> Result<ByEvent, NoMemory>
    ensures { IfOk result (λ starters. (q : Bytes) → numbers_at starters q ≡ begun_by blocks.now ranks.now q) }
{
    let mut starters = ByEvent::new(alloc);
    for rank in ranks {
        let events = events_of(blocks, rank.root);
        starters.note_events(alloc, Counted::Initial, rank.number, events)?;
    }
    Ok(starters)
}
