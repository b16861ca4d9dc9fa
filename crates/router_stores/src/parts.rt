//! The stores of a state one by one, before they are put together.

use crate::Ready;
use activity_context::Contexts;
use cmp_store::Fields;
use entity_tree::Tree;
use event_mask::Masks;
use event_queue::Queues;
use profile_tables::Profiles;
use router_order::Order;
use router_state::{RootName, Service};
use rows_leaves::Leaves;
use timer_facility::Timers;

/// Filled stores, the order of delivery and the activities that are ready, and what no store keeps.
#[derive(Drop)]
pub struct StoreParts {
    pub fields: Fields,
    pub tree: Tree,
    pub contexts: Contexts,
    pub masks: Masks,
    pub queues: Queues,
    pub timers: Timers,
    pub profiles: Profiles,
    pub order: Order,
    pub ready: Leaves<Ready>,
    pub root_names: Leaves<RootName>,
    pub services: Vec<Service>,
    pub clock: u64,
    pub inputs: u64,
    pub next_event: u64,
}
