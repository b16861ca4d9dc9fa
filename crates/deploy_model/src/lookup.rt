//! What is looked up in all parts.
ghost use Rattle.std.specs.Prelude.{◌≡◌, Option, IfOk, OnOk, bytes_eq, if◌then◌else◌};
ghost use Rattle.script_tree.specs.Tree.{Bytes};
ghost use Rattle.deploy_model.specs.Firsts.{answer_of};
ghost use Rattle.deploy_model.specs.Rules.{or_later};
ghost use Rattle.deploy_model.specs.Lookups.{known_of};
ghost use Rattle.deploy_model.specs.Tables.{kind_of, is_event as is_event_so, event_field as field_so, aliased, alias_in, alias_kind, known_in};

use crate::built_in::{built_in_field, is_built_in};
use crate::first::{Kinds, Numbers, kinds_of, numbers_of};
use crate::parts::{Block, EventType, Parts};
use slee_value::{Kind, Name, NoMemory};
use std::alloc::Global;

/// The keys of events, profiles and blocks, the declared events, and the types of aliases.
#[derive(Drop)]
pub(crate) struct Lookup<'v> {
    pub events: Numbers<'v>,
    pub profiles: Numbers<'v>,
    pub blocks: Numbers<'v>,
    pub event_types: &'v [EventType],
    pub aliases: Kinds<'v>,
}

impl<'v> Lookup<'v> {
    /// Whether an event is declared or built in.
    pub(crate) fn is_event(&self, event: &str) -> bool
        ensures { result ≡ is_event_so (known_of self.now) event.now }
    {
        self.events.get(event).is_some() || is_built_in(event)
    }

    /// The type of a field of an event that is declared or built in.
    pub(crate) fn event_field(&self, event: &str, field: &str) -> Option<Kind>
        ensures { result ≡ field_so (known_of self.now) event.now field.now }
    {
        match self.events.get(event) {
            Some(number) => match self.event_types.get(number) {
                Some(declared) => kind_in(declared.fields.as_slice(), field),
                None => None,
            },
            None => built_in_field(event, field),
        }
    }
}

/// The type of a declared name.
fn kind_in(fields: &[(Name, Kind)], name: &str) -> Option<Kind>
    ensures { result ≡ kind_of fields.now name.now }
{
    for (declared, kind) in fields {
        if name == declared.as_str() {
            return Some(*kind);
        }
    }
    None
}

/// The alias has the attribute's type, if it had none before.
fn note_alias<'v>(
    kinds: &mut Kinds<'v>,
    kind: Option<Kind>,
    alias: &'v Name,
) -> Result<(), NoMemory>
    ensures { OnOk result ((q : Bytes) → answer_of kinds.new q ≡ or_later (answer_of kinds.old q) (aliased kind alias.now q)) }
{
    match kind {
        Some(kind) => kinds.note(alias.as_str(), kind),
        None => Ok(()),
    }
}

/// The aliases have their attributes' types, if they had none before.
fn note_aliases<'v>(
    kinds: &mut Kinds<'v>,
    attributes: &Kinds,
    aliases: &'v [(Name, Name)],
) -> Result<(), NoMemory>
    ensures { OnOk result ((q : Bytes) → answer_of kinds.new q ≡ or_later (answer_of kinds.old q) (alias_in (answer_of attributes.now) aliases.now q)) }
{
    for (name, alias) in aliases {
        note_alias(kinds, attributes.get(name.as_str()), alias)?;
    }
    Ok(())
}

/// The aliases of a block's attributes have these attributes' types, if they had none before.
fn note_block<'v>(alloc: Global, kinds: &mut Kinds<'v>, block: &'v Block) -> Result<(), NoMemory>
    ensures { OnOk result ((q : Bytes) → answer_of kinds.new q ≡ or_later (answer_of kinds.old q) (alias_in (kind_of block.now.attributes) block.now.aliases q)) }
{
    let attributes = kinds_of(alloc, block.attributes.as_slice())?;
    note_aliases(kinds, &attributes, block.aliases.as_slice())?;
    Ok(())
}

/// The types of the first attributes with each alias.
fn aliases_of<'v>(alloc: Global, blocks: &'v [Block]) -> Result<Kinds<'v>, NoMemory>
    ensures { IfOk result (λ kinds. (q : Bytes) → answer_of kinds q ≡ alias_kind blocks.now q) }
{
    let mut kinds = Kinds::new(alloc);
    for block in blocks {
        note_block(alloc, &mut kinds, block)?;
    }
    Ok(kinds)
}

/// What is looked up in these parts.
pub(crate) fn lookup_of<'v>(alloc: Global, parts: &'v Parts) -> Result<Lookup<'v>, NoMemory>
    ensures { IfOk result (λ all. known_of all ≡ known_in parts.now) }
{
    let event_types = parts.events.as_slice();
    let events = numbers_of(alloc, event_types)?;
    let profiles = numbers_of(alloc, parts.profiles.as_slice())?;
    let blocks = numbers_of(alloc, parts.blocks.as_slice())?;
    let aliases = aliases_of(alloc, parts.blocks.as_slice())?;
    Ok(Lookup {
        events,
        profiles,
        blocks,
        event_types,
        aliases,
    })
}
