//! Which item of a list a component's name, vendor and version belong to first.
ghost use Rattle.std.specs.Prelude.{◌≡◌, Option, IfOk, OnOk};
ghost use Rattle.slee_value.specs.declared.component.ComponentId.{ComponentId as AComponent};
ghost use Rattle.deploy_model.specs.Ids.{id_answer, only_id};
ghost use Rattle.deploy_model.specs.Rules.{or_later};
ghost use Rattle.deploy_model.specs.Tables.{id_number};

use indexmap::IndexMap;
use slee_value::{ComponentId, NoMemory};
use std::alloc::Global;

/// What is identified by a name, a vendor and a version.
pub(crate) trait Component {
    ghost use Rattle.slee_value.specs.declared.component.ComponentId.{ComponentId};

    ghost id_of: { Self → ComponentId };

    fn id(&self) -> &ComponentId
        ensures { result.now ≡ id_of self.now };
}

/// The texts that identify a component.
#[derive(Clone, Copy, PartialEq, Eq, Hash)]
pub(crate) struct Triple<'v> {
    name: &'v str,
    vendor: &'v str,
    version: &'v str,
}

/// From components to the numbers of the first items that are they.
#[derive(Drop)]
pub(crate) struct Ids<'v> {
    found: IndexMap<Triple<'v>, usize>,
}

impl<'v> Ids<'v> {
    fn new(alloc: Global) -> Self
        ensures { (q : AComponent) → id_answer result q ≡ Option.None }
    {
        Ids {
            found: IndexMap::new(alloc),
        }
    }

    /// The component is that of the item, if it was none's before.
    fn note(&mut self, id: &'v ComponentId, number: usize) -> Result<(), NoMemory>
        ensures { OnOk result ((q : AComponent) → id_answer self.new q ≡ or_later (id_answer self.old q) (only_id id.now number q)) }
    {
        let triple = triple_of(id);
        if self.found.get(&triple).is_some() {
            return Ok(());
        }
        self.found.insert(triple, number)?;
        Ok(())
    }

    /// The number of the first item that is the component.
    pub(crate) fn number_of(&self, id: &ComponentId) -> Option<usize>
        ensures { result ≡ id_answer self.now id.now }
    {
        self.found.get(&triple_of(id)).copied()
    }
}

fn triple_of(id: &ComponentId) -> Triple
    ensures name { result.name.now ≡ id.now.name }
    ensures vendor { result.vendor.now ≡ id.now.vendor }
    ensures version { result.version.now ≡ id.now.version }
{
    Triple {
        name: id.name.as_str(),
        vendor: id.vendor.as_str(),
        version: id.version.as_str(),
    }
}

/// Which item of a list is each component.
pub(crate) fn ids_of<'v, T: Component>(alloc: Global, items: &'v [T]) -> Result<Ids<'v>, NoMemory>
    ensures { IfOk result (λ n. (q : AComponent) → id_answer n q ≡ id_number T.id_of items.now q) }
{
    let mut ids = Ids::new(alloc);
    for (i, item) in items.iter().enumerate() {
        ids.note(item.id(), i)?;
    }
    Ok(ids)
}
