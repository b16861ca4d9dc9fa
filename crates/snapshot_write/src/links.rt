//! Attachments, each with its masks.
ghost use Rattle.std.specs.Prelude.{◌≡◌, ◌++◌, OnOk};
ghost use Rattle.slee_value.specs.Bytes.{spelled_text};
ghost use Rattle.router_state.specs.Snapshot.{listed, spelled_link};

use crate::values::{put_count, put_text};
use router_state::Mask;
use router_stores::Stores;
use rows_leaves::Run;
use slee_value::{ActivityId, EntityId, NoMemory, write_u64};

fn put_masks(rows: Run<'_, Mask>, into: &mut Vec<u8>) -> Result<(), NoMemory>
    ensures { OnOk result (into.new.items ≡ into.old.items ++ listed (λ m. spelled_text m.event) rows.entry) }
{
    put_count(&rows, into)?;
    'rows: for row in rows {
        put_text(row.event.as_bytes(), into)?;
    }
    Ok(())
}

fn put_link(
    stores: &Stores,
    entity: EntityId,
    activity: ActivityId,
    into: &mut Vec<u8>,
) -> Result<(), NoMemory>
    ensures { OnOk result (into.new.items ≡ into.old.items ++ spelled_link stores.now.state (record { entity = entity; activity = activity })) }
{
    write_u64(activity.0, into)?;
    write_u64(entity.0, into)?;
    put_masks(stores.masks().of(entity, activity), into)
}

/// Adds all attachments.
pub fn put_links(stores: &Stores, into: &mut Vec<u8>) -> Result<(), NoMemory>
    ensures { OnOk result (into.new.items ≡ into.old.items ++ listed (spelled_link stores.now.state) stores.now.state.links) }
{
    let contexts = stores.contexts();
    write_u64(contexts.links_len(), into)?;
    'rows: for place in 0..contexts.links_len() {
        let (entity, activity) = contexts.links_at(place);
        put_link(stores, entity, activity, into)?;
    }
    Ok(())
}
