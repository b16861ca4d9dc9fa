//! Entries that come and go as the stores change.
ghost use Rattle.std.specs.Prelude.{◌+◌, ◌<◌, ◌≤◌, ℕ, ℤ};
ghost use Rattle.router_state.specs.Trees.{with_entity, without_entity, with_root_name, without_root_name};
ghost use Rattle.router_state.specs.declared.rows.Stem.TheVariants as stems;
ghost use Rattle.rows_index.specs.Index.{IsIndex};
ghost use Rattle.router_roots.specs.Roots.{name_entry, roots_among, service_entry};

use crate::names::name_number;
use router_state::Stem;
use router_stores::Stores;
use rows_index::Entry;
use rows_leaves::Leaves;
use slee_value::{ConvName, EntityId};

/// Lists the root that is created next under its service.
pub fn list_root(entries: &mut Leaves<Entry>, stores: &Stores, service: u32)
    requires listed { IsIndex service_entry (roots_among stores.now.state.entities) entries.old.rows }
    requires room { 0 < entries.old.room }
    ensures listed { (block : ℕ) → (priority : ℤ) → IsIndex service_entry (roots_among (with_entity stores.now.state.entities stores.now.state.next_entity block (stems.Root service) priority)) entries.new.rows }
    ensures room { entries.old.room ≤ entries.new.room + 1 }
{
    stores.ordered();
    let number = stores.tree().next_number();
    entries.put_row(Entry {
        key: service as u64,
        number,
    });
}

/// Lists the entity no more under a service. A child isn't listed.
pub fn unlist_root(entries: &mut Leaves<Entry>, stores: &Stores, entity: EntityId)
    requires { IsIndex service_entry (roots_among stores.now.state.entities) entries.old.rows }
    ensures listed { IsIndex service_entry (roots_among (without_entity stores.now.state.entities entity.0)) entries.new.rows }
    ensures room { entries.old.room ≤ entries.new.room }
{
    stores.ordered();
    match stores.tree().find(entity) {
        Some(row) => match &row.stem {
            Stem::Root(service) => entries.cut_row(*service as u64, entity.0, &[]),
            Stem::Child(..) => {}
        },
        None => {}
    }
}

/// Lists the root under its name, and under no other one.
pub fn list_name(entries: &mut Leaves<Entry>, stores: &Stores, entity: EntityId, name: &ConvName)
    requires listed { IsIndex name_entry stores.now.state.root_names entries.old.rows }
    requires room { 0 < entries.old.room }
    ensures listed { IsIndex name_entry (with_root_name stores.now.state.root_names entity.0 name.now) entries.new.rows }
    ensures room { entries.old.room ≤ entries.new.room + 1 }
{
    stores.ordered();
    unlist_name(entries, stores, entity);
    entries.put_row(Entry {
        key: name_number(name),
        number: entity.0,
    });
}

/// Lists the entity no more under a name.
pub fn unlist_name(entries: &mut Leaves<Entry>, stores: &Stores, entity: EntityId)
    requires { IsIndex name_entry stores.now.state.root_names entries.old.rows }
    ensures listed { IsIndex name_entry (without_root_name stores.now.state.root_names entity.0) entries.new.rows }
    ensures room { entries.old.room ≤ entries.new.room }
{
    stores.ordered();
    match stores.root_name(entity) {
        Some(name) => entries.cut_row(name_number(name), entity.0, &[]),
        None => {}
    }
}
