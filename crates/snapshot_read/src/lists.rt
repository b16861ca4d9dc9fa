//! Lists: how many items, and then their bytes.
ghost use Rattle.deploy_model.specs.Resolving.{deployed_of};
ghost use Rattle.slee_value.specs.Reading.{Gives};
ghost use Rattle.router_state.specs.Parsing.{items_at, list_at};

use crate::item::Item;
use slee_descriptor::Deployment;
use slee_value::{PartFault, read_u64};
use std::alloc::Global;

/// So many items. Memory is taken as they come, whatever the count says.
fn read_items<'b, T: Item>(
    alloc: Global,
    deployment: &Deployment,
    format: u8,
    count: u64,
    bytes: &'b [u8],
) -> Result<(Vec<T>, &'b [u8]), PartFault>
    ensures { Gives (λ x. (x.0.items, x.1.now)) result (items_at (T.item_at format (deployed_of deployment.now.parts)) count bytes.now) }
{
    let mut items = Vec::new(alloc);
    let mut rest = bytes;
    'items: for _ in 0..count {
        let (item, after) = T::read(alloc, deployment, format, rest)?;
        items.push(item)?;
        rest = after;
    }
    Ok((items, rest))
}

/// The list at the front of the bytes, and the bytes after it.
pub(crate) fn read_list<'b, T: Item>(
    alloc: Global,
    deployment: &Deployment,
    format: u8,
    bytes: &'b [u8],
) -> Result<(Vec<T>, &'b [u8]), PartFault>
    ensures { Gives (λ x. (x.0.items, x.1.now)) result (list_at (T.item_at format (deployed_of deployment.now.parts)) bytes.now) }
{
    let (count, rest) = read_u64(bytes)?;
    read_items(alloc, deployment, format, count, rest)
}
