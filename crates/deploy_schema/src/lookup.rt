//! What the tables look up in the whole document.
ghost use Rattle.std.specs.Prelude.{◌≡◌, IfOk, codes, option_and_then};
ghost use Rattle.serde_json.specs.Find.{get_item};
ghost use Rattle.serde_json.specs.View.{view, items_view};
ghost use Rattle.deploy_schema.specs.Names.{names_in, kind_at as kind_at_so, is_event as is_event_so, event_field as field_so};
ghost use Rattle.deploy_schema.specs.Numbers.{answer_of, numbers_from};
ghost use Rattle.deploy_schema.specs.Ids.{ids_from};
ghost use Rattle.deploy_schema.specs.Lookups.{names_of, id_answer};

use crate::firsts::Numbers;
use crate::ids::{Ids, ids_of};
use crate::kinds::{Kinds, aliases_of, kind_at};
use crate::numbers::{items_in, number_of_name, numbers_of};
use deploy_model::{built_in_field, is_built_in};
use serde_json::Value;
use slee_value::{Kind, NoMemory};
use std::alloc::Global;

/// Which item of an array has each key, and which is each component.
#[derive(Drop)]
pub(crate) struct Listed<'v> {
    pub keys: Numbers<'v>,
    pub ids: Ids<'v>,
}

/// The keys and the components of each array, the declared events, and the types of aliases.
#[derive(Drop)]
pub(crate) struct Lookup<'v> {
    pub events: Listed<'v>,
    pub profiles: Listed<'v>,
    pub blocks: Listed<'v>,
    pub services: Listed<'v>,
    pub event_types: &'v [Value],
    pub aliases: Kinds<'v>,
}

impl<'v> Lookup<'v> {
    /// Whether an event is declared or built in.
    pub(crate) fn is_event(&self, event: &str) -> bool
        ensures { result ≡ is_event_so (names_of self.now) event.now }
    {
        number_of_name(&self.events.keys, event).is_some() || is_built_in(event)
    }

    /// The type of a field of an event that is declared or built in.
    pub(crate) fn event_field(&self, event: &str, field: &str) -> Option<Kind>
        ensures { result ≡ field_so (names_of self.now) event.now field.now }
    {
        match self.events.keys.get(event) {
            Some(number) => declared_field(self.event_types, number, field),
            None => built_in_field(event, field),
        }
    }
}

/// The type of a field of the event type of this number.
fn declared_field(types: &[Value], number: usize, field: &str) -> Option<Kind>
    ensures { result ≡ option_and_then (λ e. kind_at_so (codes "fields") e field.now) (get_item number (items_view types.now)) }
{
    match types.get(number) {
        Some(declared) => kind_at(declared, "fields", field),
        None => None,
    }
}

/// The keys and the components of an array's items.
fn listed_in<'v>(alloc: Global, items: &'v [Value]) -> Result<Listed<'v>, NoMemory>
    ensures keys { IfOk result (λ l. answer_of l.keys ≡ numbers_from (codes "key") 0 (items_view items.now)) }
    ensures ids { IfOk result (λ l. id_answer l.ids ≡ ids_from 0 (items_view items.now)) }
{
    let keys = numbers_of(alloc, "key", items)?;
    let ids = ids_of(alloc, items)?;
    Ok(Listed { keys, ids })
}

/// What is looked up in this document.
pub(crate) fn lookup_of<'v>(alloc: Global, document: &'v Value) -> Result<Lookup<'v>, NoMemory>
    ensures { IfOk result (λ all. names_of all ≡ names_in (view document.now)) }
{
    let event_types = items_in(document, "events");
    let profile_items = items_in(document, "profiles");
    let block_items = items_in(document, "blocks");
    let service_items = items_in(document, "services");
    let events = listed_in(alloc, event_types)?;
    let profiles = listed_in(alloc, profile_items)?;
    let blocks = listed_in(alloc, block_items)?;
    let services = listed_in(alloc, service_items)?;
    let aliases = aliases_of(alloc, block_items)?;
    Ok(Lookup {
        events,
        profiles,
        blocks,
        services,
        event_types,
        aliases,
    })
}
