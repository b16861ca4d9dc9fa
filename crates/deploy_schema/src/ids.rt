//! Which item of an array has a name, vendor and version first.
ghost use Rattle.std.specs.Prelude.{◌≡◌, Option, IfOk, OnOk};
ghost use Rattle.slee_value.specs.declared.component.ComponentId.{ComponentId};
ghost use Rattle.deploy_model.specs.Rules.{or_later};
ghost use Rattle.deploy_model.specs.Ids.{only_id};
ghost use Rattle.serde_json.specs.View.{view, items_view};
ghost use Rattle.deploy_schema.specs.Ids.{id_with, id_of, ids_from};
ghost use Rattle.deploy_schema.specs.Lookups.{id_answer, component_of};

use crate::member::text_at;
use indexmap::IndexMap;
use serde_json::Value;
use slee_value::NoMemory;
use std::alloc::Global;

/// The texts that identify a component.
#[derive(Clone, Copy, PartialEq, Eq, Hash)]
pub(crate) struct Triple<'v> {
    name: &'v str,
    vendor: &'v str,
    version: &'v str,
}

/// The name and vendor of an item, with a version.
fn triple_with<'v>(item: &'v Value, version: &'v str) -> Triple<'v>
    ensures { component_of result ≡ id_with (view item.now) version.now }
{
    Triple {
        name: text_at(item, "name"),
        vendor: text_at(item, "vendor"),
        version,
    }
}

/// From components to the numbers of the first items that are they.
#[derive(Drop)]
pub(crate) struct Ids<'v> {
    found: IndexMap<Triple<'v>, usize>,
}

impl<'v> Ids<'v> {
    fn new(alloc: Global) -> Self
        ensures { (q : ComponentId) → id_answer result q ≡ Option.None }
    {
        Ids {
            found: IndexMap::new(alloc),
        }
    }

    /// The component is that of the item, if it was none's before.
    fn note(&mut self, triple: Triple<'v>, number: usize) -> Result<(), NoMemory>
        ensures { OnOk result ((q : ComponentId) → id_answer self.new q ≡ or_later (id_answer self.old q) (only_id (component_of triple.entry) number q)) }
    {
        if self.found.get(&triple).is_some() {
            return Ok(());
        }
        self.found.insert(triple, number)?;
        Ok(())
    }

    /// The item's component is that of the item, if it was none's before.
    fn note_item(&mut self, item: &'v Value, number: usize) -> Result<(), NoMemory>
        ensures { OnOk result ((q : ComponentId) → id_answer self.new q ≡ or_later (id_answer self.old q) (only_id (id_of (view item.now)) number q)) }
    {
        self.note(triple_with(item, text_at(item, "version")), number)
    }

    /// The number of the first item that has the item's name and vendor, and this version.
    pub(crate) fn number_with(&self, item: &Value, version: &str) -> Option<usize>
        ensures { result ≡ id_answer self.now (id_with (view item.now) version.now) }
    {
        self.found.get(&triple_with(item, version)).copied()
    }
}

/// Which item of an array is each component.
pub(crate) fn ids_of<'v>(alloc: Global, items: &'v [Value]) -> Result<Ids<'v>, NoMemory>
    ensures { IfOk result (λ ids. id_answer ids ≡ ids_from 0 (items_view items.now)) }
{
    let mut ids = Ids::new(alloc);
    for (i, item) in items.iter().enumerate() {
        ids.note_item(item, i)?;
    }
    Ok(ids)
}
