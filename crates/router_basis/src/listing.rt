//! Numbers, listed from rows and entries.
ghost use Rattle.std.specs.Prelude.{◌≡◌, IfOk, map};
ghost use Rattle.router_state.specs.Contexts.{links_on};

use activity_context::Contexts;
use rows_index::Entry;
use rows_leaves::Run;
use slee_value::{ActivityId, NoMemory};
use std::alloc::Global;

/// The numbers of entries.
pub fn numbers_in(alloc: Global, entries: Run<'_, Entry>) -> Result<Vec<u64>, NoMemory>
    ensures { IfOk result (λ all. all.items ≡ map (λ entry. entry.number) entries.entry) }
{
    let mut all = Vec::new(alloc);
    'entries: for entry in entries {
        all.push(entry.number)?;
    }
    Ok(all)
}

/// The entities that are attached to the activity, rising.
pub fn attached(
    alloc: Global,
    contexts: &Contexts,
    activity: ActivityId,
) -> Result<Vec<u64>, NoMemory>
    ensures { IfOk result (λ all. all.items ≡ map (λ l. l.entity.0) (links_on contexts.now.links activity.0)) }
{
    let mut all = Vec::new(alloc);
    'links: for link in contexts.links_on(activity) {
        all.push(link.entity.0)?;
    }
    Ok(all)
}
