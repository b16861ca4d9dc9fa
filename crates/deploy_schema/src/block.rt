//! Blocks.
ghost use Rattle.std.specs.Prelude.{◌≡◌};
ghost use Rattle.deploy_model.specs.Faults.{Says};
ghost use Rattle.deploy_model.specs.Rules.{alias as alias_so, is_same_kind as same_so};
ghost use Rattle.deploy_schema.specs.Forms.{object};
ghost use Rattle.deploy_schema.specs.Lookups.{names_of};
ghost use Rattle.deploy_schema.specs.Tables.{alias_name, alias_entry, relation, callbacks, block_parts, block_values, block_members};

use crate::component::{Version, component};
use crate::fault::{here, unless};
use crate::form::{EntryForm, Form};
use crate::handler::Handlers;
use crate::kinds::attribute_kind;
use crate::leaf::Priority;
use crate::lookup::Lookup;
use crate::map::{MapOf, Named};
use crate::method::MethodForm;
use crate::object::{End, May, Need, Object, Table};
use crate::script::ScriptForm;
use crate::text::{FreshName, Label, Reference, TextOf, TextRule, check_name};
use crate::word::TypeWord;
use deploy_model::{DeployBad, DeployFault};
use serde_json::Value;
use slee_value::Kind;
use std::alloc::Global;

fn is_same_kind(kind: Kind, other: Kind) -> bool
    ensures { result ≡ same_so kind other }
{
    match (kind, other) {
        (Kind::Int, Kind::Int)
        | (Kind::Text, Kind::Text)
        | (Kind::Bool, Kind::Bool)
        | (Kind::Activity, Kind::Activity)
        | (Kind::Timer, Kind::Timer) => true,
        _ => false,
    }
}

/// The type of an attribute is that of the first with its alias.
fn check_alias(alloc: Global, kind: Option<Kind>, first: Option<Kind>) -> Result<(), DeployFault>
    ensures { Says (alias_so kind first) result }
{
    match (kind, first) {
        (None, _) => Err(here(alloc, DeployBad::UnknownName)),
        (Some(kind), Some(first)) => unless(alloc, is_same_kind(kind, first), DeployBad::Alias),
        (Some(_), None) => Err(here(alloc, DeployBad::Alias)),
    }
}

/// An alias of an attribute with this type.
#[derive(Drop)]
struct AliasName<'a, 'v> {
    all: &'a Lookup<'v>,
    kind: Option<Kind>,
}

impl<'a, 'v> TextRule for AliasName<'a, 'v> {
    ghost text_fault = { λ s. alias_name (names_of s.all.now) s.kind };

    fn check_text(
        &self,
        alloc: Global,
        _number: usize,
        _owner: &Value,
        text: &str,
    ) -> Result<(), DeployFault> {
        check_name(alloc, text)?;
        check_alias(alloc, self.kind, self.all.aliases.get(text))
    }
}

/// An attribute and its alias.
#[derive(Drop)]
struct AliasEntry<'a, 'v>(&'a Lookup<'v>);

impl<'a, 'v> EntryForm for AliasEntry<'a, 'v> {
    ghost entry_fault = { λ s. alias_entry (names_of s.0.now) };

    fn check_entry(
        &self,
        alloc: Global,
        name: &str,
        number: usize,
        owner: &Value,
        value: &Value,
    ) -> Result<(), DeployFault> {
        let kind = attribute_kind(owner, name);
        unless(alloc, kind.is_some(), DeployBad::UnknownName)?;
        TextOf(AliasName { all: self.0, kind }).check(alloc, number, owner, value)
    }
}

/// A relation.
#[derive(Drop)]
struct RelationForm<'a, 'v>(&'a Lookup<'v>);

impl<'a, 'v> Form for RelationForm<'a, 'v> {
    ghost fault = { λ s. relation (names_of s.0.now) };

    fn check(
        &self,
        alloc: Global,
        number: usize,
        owner: &Value,
        value: &Value,
    ) -> Result<(), DeployFault> {
        let block = TextOf(Reference(&self.0.blocks.keys));
        let table = Need("block", block, May("priority", Priority, End));
        Object(table).check(alloc, number, owner, value)
    }
}

/// The callbacks of a block.
#[derive(Drop)]
struct Callbacks;

impl Table for Callbacks {
    ghost wants = { λ _. callbacks };

    fn check_wanted(&self, alloc: Global, number: usize, value: &Value) -> Result<(), DeployFault> {
        let rest = May("rolled_back", ScriptForm, May("remove", ScriptForm, End));
        May("exception", ScriptForm, rest).check_wanted(alloc, number, value)
    }

    fn knows(&self, name: &str) -> bool {
        "exception" == name || "rolled_back" == name || "remove" == name
    }
}

/// The relations, events and methods of a block, and its callbacks.
#[derive(Drop)]
struct BlockParts<'a, 'v>(&'a Lookup<'v>);

impl<'a, 'v> Table for BlockParts<'a, 'v> {
    ghost wants = { λ s. block_parts (names_of s.0.now) };

    fn check_wanted(&self, alloc: Global, number: usize, value: &Value) -> Result<(), DeployFault> {
        let methods = May("methods", MapOf(Named(MethodForm)), Callbacks);
        let events = May("events", Handlers(self.0), methods);
        May("relations", MapOf(Named(RelationForm(self.0))), events).check_wanted(
            alloc, number, value,
        )
    }

    fn knows(&self, name: &str) -> bool {
        "relations" == name || "events" == name || "methods" == name || Callbacks.knows(name)
    }
}

/// The values of a block, and its parts.
#[derive(Drop)]
struct BlockValues<'a, 'v>(&'a Lookup<'v>);

impl<'a, 'v> Table for BlockValues<'a, 'v> {
    ghost wants = { λ s. block_values (names_of s.0.now) };

    fn check_wanted(&self, alloc: Global, number: usize, value: &Value) -> Result<(), DeployFault> {
        let aliases = May("aliases", MapOf(AliasEntry(self.0)), BlockParts(self.0));
        let attributes = May("attributes", MapOf(Named(TextOf(TypeWord))), aliases);
        May("fields", MapOf(Named(TextOf(TypeWord))), attributes).check_wanted(alloc, number, value)
    }

    fn knows(&self, name: &str) -> bool {
        "fields" == name
            || "attributes" == name
            || "aliases" == name
            || BlockParts(self.0).knows(name)
    }
}

/// A block.
#[derive(Drop)]
pub(crate) struct BlockForm<'a, 'v>(pub &'a Lookup<'v>);

impl<'a, 'v> Form for BlockForm<'a, 'v> {
    ghost fault = { λ s. object (block_members (names_of s.0.now)) };

    fn check(
        &self,
        alloc: Global,
        number: usize,
        owner: &Value,
        value: &Value,
    ) -> Result<(), DeployFault> {
        let all = self.0;
        let key = TextOf(FreshName(&all.blocks.keys));
        let table = component!(key, &all.blocks.ids, BlockValues(all));
        Object(table).check(alloc, number, owner, value)
    }
}
