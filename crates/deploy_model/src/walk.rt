//! The walk over all parts, for the first fault.
ghost use Rattle.std.specs.Prelude.{◌≡◌, codes};
ghost use Rattle.deploy_model.specs.Faults.{Says, under, unless as unless_so};
ghost use Rattle.deploy_model.specs.Firsts.{answer_of};
ghost use Rattle.deploy_model.specs.Ids.{id_answer};
ghost use Rattle.deploy_model.specs.Lookups.{known_of};
ghost use Rattle.deploy_model.specs.Rules.{items, entries as all_entries, alias as alias_so, known as known_so, is_kind, is_same_kind as is_same_kind_so};
ghost use Rattle.deploy_model.specs.declared.fault.DeployBad.TheVariants as bad;
ghost use Rattle.deploy_model.specs.Tables.{kind_of, key_number, event_type, profile_spec, relation, parameter, method, block_members, block, service, block_event, tables, id_number, fault_by, parts_fault};

use crate::fault::{DeployBad, DeployFault, here, unless};
use crate::first::{Kinds, Numbers, kinds_of, numbers_of};
use crate::handling::Handling;
use crate::ids::{Ids, ids_of};
use crate::leaf::{FreshName, Known, NotTaken, ProfileKind, check_component};
use crate::lookup::{Lookup, lookup_of};
use crate::parts::{Block, EventType, Method, Parts, ProfileSpec, Relation, Service, Table};
use crate::rule::{Entries, Items, Rule, check_member};
use slee_value::{Kind, Name};
use std::alloc::Global;

/// An event type.
#[derive(Drop)]
struct EventRule<'a, 'v> {
    keys: &'a Numbers<'v>,
    ids: &'a Ids<'v>,
}

impl<'a, 'v> Rule<EventType> for EventRule<'a, 'v> {
    ghost fault = { λ s number e. event_type (answer_of s.keys.now) (id_answer s.ids.now) number e };

    fn check(&self, alloc: Global, number: usize, part: &EventType) -> Result<(), DeployFault> {
        check_member(alloc, "key", &NotTaken, number, part)?;
        check_component(alloc, self.keys, self.ids, number, part)?;
        Ok(())
    }
}

/// A profile specification.
#[derive(Drop)]
struct ProfileRule<'a, 'v> {
    keys: &'a Numbers<'v>,
    ids: &'a Ids<'v>,
}

impl<'a, 'v> Rule<ProfileSpec> for ProfileRule<'a, 'v> {
    ghost fault = { λ s number p. profile_spec (answer_of s.keys.now) (id_answer s.ids.now) number p };

    fn check(&self, alloc: Global, number: usize, part: &ProfileSpec) -> Result<(), DeployFault> {
        check_component(alloc, self.keys, self.ids, number, part)?;
        check_member(
            alloc,
            "attributes",
            &Entries(ProfileKind),
            number,
            &part.attributes,
        )?;
        check_unique(alloc, number, part)?;
        Ok(())
    }
}

fn check_unique(alloc: Global, number: usize, profile: &ProfileSpec) -> Result<(), DeployFault>
    ensures { Says (under (codes "unique") (items (λ _ name. known_so (kind_of profile.now.attributes name)) profile.now.unique)) result }
{
    let attributes = kinds_of(alloc, profile.attributes.as_slice())?;
    check_member(
        alloc,
        "unique",
        &Items(Known(&attributes)),
        number,
        &profile.unique,
    )
}

/// A table, whose profile there is.
#[derive(Drop)]
struct TableRule<'a, 'v>(&'a Numbers<'v>);

impl<'a, 'v> Rule<Table> for TableRule<'a, 'v> {
    ghost fault = { λ s _ t. known_so (answer_of s.0.now t.profile) };

    fn check(&self, alloc: Global, number: usize, part: &Table) -> Result<(), DeployFault> {
        Known(self.0).check(alloc, number, &part.profile)
    }
}

/// An alias, all attributes of which have one type.
#[derive(Drop)]
struct AliasRule<'a, 'v, 'b> {
    attributes: &'a Kinds<'b>,
    aliases: &'a Kinds<'v>,
}

impl<'a, 'v, 'b> Rule<(Name, Name)> for AliasRule<'a, 'v, 'b> {
    ghost fault = { λ s _ a. alias_so (answer_of s.attributes.now a.0) (answer_of s.aliases.now a.1) };

    fn check(&self, alloc: Global, _number: usize, part: &(Name, Name)) -> Result<(), DeployFault> {
        match self.attributes.get(part.0.as_str()) {
            None => Err(here(alloc, DeployBad::UnknownName)),
            Some(kind) => check_alias(alloc, kind, self.aliases.get(part.1.as_str())),
        }
    }
}

/// The type of an attribute is that of the first with its alias.
fn check_alias(alloc: Global, kind: Kind, first: Option<Kind>) -> Result<(), DeployFault>
    ensures { Says (unless_so (is_kind kind first) bad.Alias) result }
{
    match first {
        Some(first) => unless(alloc, is_same_kind(kind, first), DeployBad::Alias),
        None => Err(here(alloc, DeployBad::Alias)),
    }
}

fn is_same_kind(kind: Kind, other: Kind) -> bool
    ensures { result ≡ is_same_kind_so kind other }
{
    match (kind, other) {
        (Kind::Int, Kind::Int)
        | (Kind::Text, Kind::Text)
        | (Kind::Bool, Kind::Bool)
        | (Kind::Activity, Kind::Activity)
        | (Kind::Timer, Kind::Timer) => true,
        _ => false,
    }
}

fn check_aliases(
    alloc: Global,
    all: &Lookup,
    number: usize,
    block: &Block,
) -> Result<(), DeployFault>
    ensures { Says (under (codes "aliases") (all_entries (λ a. a.0) (λ a. alias_so (kind_of block.now.attributes a.0) ((known_of all.now).alias_kind a.1)) block.now.aliases)) result }
{
    let attributes = kinds_of(alloc, block.attributes.as_slice())?;
    let rule = AliasRule {
        attributes: &attributes,
        aliases: &all.aliases,
    };
    check_member(alloc, "aliases", &Entries(rule), number, &block.aliases)
}

/// A relation, whose block there is.
#[derive(Drop)]
struct RelationRule<'a, 'v>(&'a Lookup<'v>);

impl<'a, 'v> Rule<Relation> for RelationRule<'a, 'v> {
    ghost fault = { λ s _ r. relation (known_of s.0.now) r };

    fn check(&self, alloc: Global, number: usize, part: &Relation) -> Result<(), DeployFault> {
        check_member(alloc, "block", &Known(&self.0.blocks), number, &part.block)
    }
}

/// A parameter, whose name no earlier one has.
#[derive(Drop)]
struct Parameter<'a, 'v>(&'a Numbers<'v>);

impl<'a, 'v> Rule<(Name, Kind)> for Parameter<'a, 'v> {
    ghost fault = { λ s number p. parameter (answer_of s.0.now) number p };

    fn check(&self, alloc: Global, number: usize, part: &(Name, Kind)) -> Result<(), DeployFault> {
        check_member(alloc, "name", &FreshName(self.0), number, part)
    }
}

/// A method.
#[derive(Drop)]
struct MethodRule;

impl Rule<Method> for MethodRule {
    ghost fault = { λ _ _ m. method m };

    fn check(&self, alloc: Global, number: usize, part: &Method) -> Result<(), DeployFault> {
        check_parameters(alloc, number, part)?;
        Ok(())
    }
}

fn check_parameters(alloc: Global, number: usize, method: &Method) -> Result<(), DeployFault>
    ensures { Says (under (codes "params") (items (parameter (key_number (λ p. p.0) method.now.params)) method.now.params)) result }
{
    let names = numbers_of(alloc, method.params.as_slice())?;
    check_member(
        alloc,
        "params",
        &Items(Parameter(&names)),
        number,
        &method.params,
    )
}

fn check_events(
    alloc: Global,
    all: &Lookup,
    number: usize,
    block: &Block,
) -> Result<(), DeployFault>
    ensures { Says (under (codes "events") (items (block_event (known_of all.now) (key_number (λ h. h.event) block.now.events)) block.now.events)) result }
{
    let handlers = numbers_of(alloc, block.events.as_slice())?;
    let rule = Handling {
        all,
        handlers: &handlers,
    };
    check_member(alloc, "events", &Items(rule), number, &block.events)
}

fn check_block_members(
    alloc: Global,
    all: &Lookup,
    number: usize,
    block: &Block,
) -> Result<(), DeployFault>
    ensures { Says (block_members (known_of all.now) block.now) result }
{
    check_aliases(alloc, all, number, block)?;
    check_member(
        alloc,
        "relations",
        &Entries(RelationRule(all)),
        number,
        &block.relations,
    )?;
    check_events(alloc, all, number, block)?;
    check_member(
        alloc,
        "methods",
        &Entries(MethodRule),
        number,
        &block.methods,
    )?;
    Ok(())
}

/// A block.
#[derive(Drop)]
struct BlockRule<'a, 'v> {
    all: &'a Lookup<'v>,
    ids: &'a Ids<'v>,
}

impl<'a, 'v> Rule<Block> for BlockRule<'a, 'v> {
    ghost fault = { λ s number b. block (known_of s.all.now) (id_answer s.ids.now) number b };

    fn check(&self, alloc: Global, number: usize, part: &Block) -> Result<(), DeployFault> {
        check_component(alloc, &self.all.blocks, self.ids, number, part)?;
        check_block_members(alloc, self.all, number, part)?;
        Ok(())
    }
}

/// A service.
#[derive(Drop)]
struct ServiceRule<'a, 'v> {
    all: &'a Lookup<'v>,
    keys: &'a Numbers<'v>,
    ids: &'a Ids<'v>,
}

impl<'a, 'v> Rule<Service> for ServiceRule<'a, 'v> {
    ghost fault = { λ s number x. service (known_of s.all.now) (answer_of s.keys.now) (id_answer s.ids.now) number x };

    fn check(&self, alloc: Global, number: usize, part: &Service) -> Result<(), DeployFault> {
        check_component(alloc, self.keys, self.ids, number, part)?;
        check_member(alloc, "root", &Known(&self.all.blocks), number, &part.root)?;
        Ok(())
    }
}

fn check_event_types(alloc: Global, all: &Lookup, parts: &Parts) -> Result<(), DeployFault>
    ensures { Says (under (codes "events") (items (event_type (known_of all.now).events (id_number (λ e. e.id) parts.now.events)) parts.now.events)) result }
{
    let ids = ids_of(alloc, parts.events.as_slice())?;
    let rule = EventRule {
        keys: &all.events,
        ids: &ids,
    };
    check_member(alloc, "events", &Items(rule), 0, &parts.events)
}

fn check_profiles(alloc: Global, all: &Lookup, parts: &Parts) -> Result<(), DeployFault>
    ensures { Says (under (codes "profiles") (items (profile_spec (known_of all.now).profiles (id_number (λ p. p.id) parts.now.profiles)) parts.now.profiles)) result }
{
    let ids = ids_of(alloc, parts.profiles.as_slice())?;
    let rule = ProfileRule {
        keys: &all.profiles,
        ids: &ids,
    };
    check_member(alloc, "profiles", &Items(rule), 0, &parts.profiles)
}

fn check_tables(alloc: Global, all: &Lookup, parts: &Parts) -> Result<(), DeployFault>
    ensures { Says (under (codes "tables") (tables (known_of all.now) parts.now.tables)) result }
{
    let rule = Entries(TableRule(&all.profiles));
    check_member(alloc, "tables", &rule, 0, &parts.tables)
}

fn check_blocks(alloc: Global, all: &Lookup, parts: &Parts) -> Result<(), DeployFault>
    ensures { Says (under (codes "blocks") (items (block (known_of all.now) (id_number (λ b. b.id) parts.now.blocks)) parts.now.blocks)) result }
{
    let ids = ids_of(alloc, parts.blocks.as_slice())?;
    let rule = BlockRule { all, ids: &ids };
    check_member(alloc, "blocks", &Items(rule), 0, &parts.blocks)
}

fn check_services(alloc: Global, all: &Lookup, parts: &Parts) -> Result<(), DeployFault>
    ensures { Says (under (codes "services") (items (service (known_of all.now) (key_number (λ s. s.key) parts.now.services) (id_number (λ s. s.id) parts.now.services)) parts.now.services)) result }
{
    let keys = numbers_of(alloc, parts.services.as_slice())?;
    let ids = ids_of(alloc, parts.services.as_slice())?;
    let rule = ServiceRule {
        all,
        keys: &keys,
        ids: &ids,
    };
    check_member(alloc, "services", &Items(rule), 0, &parts.services)
}

fn check_lists(alloc: Global, all: &Lookup, parts: &Parts) -> Result<(), DeployFault>
    ensures { Says (fault_by (known_of all.now) parts.now) result }
{
    check_event_types(alloc, all, parts)?;
    check_profiles(alloc, all, parts)?;
    check_tables(alloc, all, parts)?;
    check_blocks(alloc, all, parts)?;
    check_services(alloc, all, parts)?;
    Ok(())
}

/// The first fault of parts, if they have one. The types of scripts are no matter of it.
pub fn check_parts(alloc: Global, parts: &Parts) -> Result<(), DeployFault>
    ensures { Says (parts_fault parts.now) result }
{
    let all = lookup_of(alloc, parts)?;
    check_lists(alloc, &all, parts)
}
