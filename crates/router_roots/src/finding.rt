//! Roots looked for among entries.
ghost use Rattle.std.specs.Prelude.{◌≡◌, ◌==◌, false, find, not, option_map};
ghost use Rattle.std.specs.List.{list_any};
ghost use Rattle.std.specs.Option.{option_map_or};
ghost use Rattle.router_state.specs.Trees.{entity_at, is_root_of};
ghost use Rattle.router_steps.specs.Selection.{is_root_named};
ghost use Rattle.rows_index.specs.Found.{first_found};

use router_state::Stem;
use router_stores::Stores;
use rows_index::Entry;
use rows_leaves::Run;
use slee_value::{ConvName, EntityId};

/// Whether the number is one of these. Where they rise, one that is among them is found by halves.
#[tactic(auto, using(crate::proofs::FindLemmas::found_among))]
fn is_among(numbers: &[u64], number: u64) -> bool
    ensures { result ≡ list_any (λ e. e == number) numbers.now }
{
    match numbers.binary_search(&number) {
        Ok(_) => true,
        Err(_) => numbers.contains(&number),
    }
}

/// Whether one of the entries isn't among these numbers.
pub fn has_other(entries: Run<'_, Entry>, numbers: &[u64]) -> bool
    ensures { result ≡ list_any (λ entry. not (list_any (λ e. e == entry.number) numbers.now)) entries.entry }
{
    'entries: for entry in entries {
        if !is_among(numbers, entry.number) {
            return true;
        }
    }
    false
}

fn is_root_of(service: u32, stem: &Stem) -> bool
    ensures { result ≡ is_root_of service stem.now }
{
    match stem {
        Stem::Root(own) => *own == service,
        Stem::Child(..) => false,
    }
}

/// Whether the entity is there, and is a root of the service.
fn is_root_at(stores: &Stores, service: u32, entity: EntityId) -> bool
    ensures { result ≡ option_map_or (λ row. is_root_of service row.stem) (entity_at stores.now.state.entities entity.0) false }
{
    match stores.tree().find(entity) {
        Some(row) => is_root_of(service, &row.stem),
        None => false,
    }
}

/// Whether the entity is a root of the service with this name.
fn is_root_named(stores: &Stores, service: u32, name: &ConvName, entity: EntityId) -> bool
    ensures { result ≡ option_map_or (is_root_named stores.now.state service name.now) (find (λ row. row.entity.0 == entity.0) stores.now.state.root_names) false }
{
    match stores.root_name(entity) {
        Some(own) => own.same(name) && is_root_at(stores, service, entity),
        None => false,
    }
}

/// The first of the entries' entities that is a root of the service with this name.
pub fn named_among(
    stores: &Stores,
    entries: Run<'_, Entry>,
    service: u32,
    name: &ConvName,
) -> Option<EntityId>
    ensures { option_map (λ e. e.0) result ≡ option_map (λ row. row.entity.0) (first_found (λ n. find (λ row. row.entity.0 == n) stores.now.state.root_names) (is_root_named stores.now.state service name.now) entries.entry) }
{
    'entries: for entry in entries {
        let entity = EntityId(entry.number);
        if is_root_named(stores, service, name, entity) {
            return Some(entity);
        }
    }
    None
}
