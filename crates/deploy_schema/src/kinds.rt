//! The types that a document gives to names, and to aliases.
ghost use Rattle.std.specs.Prelude.{◌≡◌, Option, IfOk, OnOk, codes};
ghost use Rattle.script_tree.specs.Tree.{Bytes};
ghost use Rattle.deploy_model.specs.Rules.{or_later};
ghost use Rattle.serde_json.specs.View.{view, items_view, members_view};
ghost use Rattle.serde_json.specs.Find.{as_str};
ghost use Rattle.deploy_schema.specs.Numbers.{answer_of};
ghost use Rattle.deploy_schema.specs.Names.{kind_in as in_so, kind_at as at_so, attribute_kind as attribute_so, aliased_by, alias_in, members_at, alias_kind};

use crate::firsts::Firsts;
use crate::member::object_at;
use crate::numbers::member_text;
use crate::word::kind_of_word;
use serde_json::{Map, Value};
use slee_value::{Kind, NoMemory};
use std::alloc::Global;

/// The types of names.
pub(crate) type Kinds<'v> = Firsts<'v, Kind>;

/// The type that a word names which an object of types has at a name.
fn kind_in(types: &Value, name: &str) -> Option<Kind>
    ensures { result ≡ in_so name.now (view types.now) }
{
    match member_text(types, name) {
        Some(word) => kind_of_word(word),
        None => None,
    }
}

/// The type that a name has in an object of types that an item has at a member.
pub(crate) fn kind_at(item: &Value, types: &str, name: &str) -> Option<Kind>
    ensures { result ≡ at_so types.now (view item.now) name.now }
{
    match item.get(types) {
        Some(types) => kind_in(types, name),
        None => None,
    }
}

/// The type of an attribute of a block or a profile.
pub(crate) fn attribute_kind(item: &Value, name: &str) -> Option<Kind>
    ensures { result ≡ attribute_so (view item.now) name.now }
{
    kind_at(item, "attributes", name)
}

/// The alias has the attribute's type, if it had none before.
fn note_alias<'v>(
    kinds: &mut Kinds<'v>,
    kind: Option<Kind>,
    alias: &'v Value,
) -> Result<(), NoMemory>
    ensures { OnOk result ((q : Bytes) → answer_of kinds.new q ≡ or_later (answer_of kinds.old q) (aliased_by kind (as_str (view alias.now)) q)) }
{
    match (kind, alias.as_str()) {
        (Some(kind), Some(alias)) => kinds.note(alias, kind),
        _ => Ok(()),
    }
}

/// The aliases of a block's attributes have these attributes' types, if they had none before.
fn note_aliases<'v>(
    kinds: &mut Kinds<'v>,
    block: &Value,
    aliases: &'v Map<String, Value>,
) -> Result<(), NoMemory>
    ensures { OnOk result ((q : Bytes) → answer_of kinds.new q ≡ or_later (answer_of kinds.old q) (alias_in (attribute_so (view block.now)) (members_view aliases.now.entries) q)) }
{
    for (name, alias) in aliases {
        note_alias(kinds, attribute_kind(block, name.as_str()), alias)?;
    }
    Ok(())
}

fn note_block<'v>(kinds: &mut Kinds<'v>, block: &'v Value) -> Result<(), NoMemory>
    ensures { OnOk result ((q : Bytes) → answer_of kinds.new q ≡ or_later (answer_of kinds.old q) (alias_in (attribute_so (view block.now)) (members_at (codes "aliases") (view block.now)) q)) }
{
    match object_at(block, "aliases") {
        Some(aliases) => note_aliases(kinds, block, aliases),
        None => Ok(()),
    }
}

/// The types of the first attributes with each alias.
pub(crate) fn aliases_of<'v>(alloc: Global, blocks: &'v [Value]) -> Result<Kinds<'v>, NoMemory>
    ensures { IfOk result (λ kinds. answer_of kinds ≡ alias_kind (items_view blocks.now)) }
{
    let mut kinds = Kinds::new(alloc);
    for block in blocks {
        note_block(&mut kinds, block)?;
    }
    Ok(kinds)
}
