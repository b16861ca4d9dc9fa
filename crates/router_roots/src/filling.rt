//! Entries of rows that are all there at once.
ghost use Rattle.std.specs.Prelude.{◌≡◌, ◌+◌, ◌<◌, ◌≤◌, if◌then◌else◌, IfOk, IsTrue};
ghost use Rattle.router_state.specs.Trees.{is_root, root_name_before};
ghost use Rattle.rows_index.specs.Index.{IsIndex, entry_before};
ghost use Rattle.rows_sorted.specs.Orders.{put, rises_by, rises_in};
ghost use Rattle.router_roots.specs.Roots.{name_entry, roots_among, service_entry};

use crate::names::name_number;
use router_state::{Entity, RootName, Stem};
use rows_index::Entry;
use rows_leaves::Leaves;
use slee_value::NoMemory;
use std::alloc::Global;

/// Lists an entity under its service, if it is a root.
fn list_entity(entries: &mut Leaves<Entry>, row: &Entity)
    requires { 0 < entries.old.room }
    ensures rows { entries.new.rows ≡ (if is_root row.now.stem then put entry_before (service_entry row.now) entries.old.rows else entries.old.rows) }
    ensures room { entries.old.room ≤ entries.new.room + 1 }
{
    match &row.stem {
        Stem::Root(service) => entries.put_row(Entry {
            key: *service as u64,
            number: row.number.0,
        }),
        Stem::Child(..) => {}
    }
}

/// The roots among the entities, under their services.
pub fn roots_of(alloc: Global, entities: &[Entity]) -> Result<Leaves<Entry>, NoMemory>
    requires { IsTrue (rises_in (λ row. row.number.0) entities.now) }
    ensures { IfOk result (λ entries. IsIndex service_entry (roots_among entities.now) entries.rows) }
{
    let mut entries = Leaves::new(alloc);
    entries.reserve(entities.len())?;
    'rows: for row in entities {
        list_entity(&mut entries, row);
    }
    Ok(entries)
}

/// The named roots, under the numbers of their names.
pub fn names_of(alloc: Global, names: &[RootName]) -> Result<Leaves<Entry>, NoMemory>
    requires { IsTrue (rises_by root_name_before names.now) }
    ensures { IfOk result (λ entries. IsIndex name_entry names.now entries.rows) }
{
    let mut entries = Leaves::new(alloc);
    entries.reserve(names.len())?;
    'rows: for row in names {
        entries.put_row(Entry {
            key: name_number(&row.name),
            number: row.entity.0,
        });
    }
    Ok(entries)
}
