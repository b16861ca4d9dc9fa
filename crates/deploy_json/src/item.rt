//! Event types, profile specifications, relations and services of a document.
ghost use Rattle.std.specs.Prelude.{◌≡◌, IfOk};
ghost use Rattle.serde_json.specs.View.{view};
ghost use Rattle.deploy_schema.specs.Names.{members_at};
ghost use Rattle.deploy_json.specs.Values.{fields_at as fields_so, event_type_of, profile_of, relation_of, service_of};
ghost use Rattle.deploy_json.specs.Shapes.{EachMember, IsField, IsEventType, IsProfile, IsRelation, IsService};

use crate::build::{Build, BuildEntry, build_list, build_map};
use crate::value::{Field, NameValue, flag_at, id_at, name_at, name_of, priority_at};
use deploy_model::{EventType, ProfileSpec, Relation, Service};
use script_types::CodeList;
use serde_json::Value;
use slee_value::{Kind, Name, NoMemory};
use std::alloc::Global;

/// The names and types that an object has at a member.
pub(crate) fn fields_at(
    alloc: Global,
    value: &Value,
    member: &str,
) -> Result<CodeList<(Name, Kind)>, NoMemory>
    requires { EachMember IsField (members_at member.now (view value.now)) }
    ensures { IfOk result (λ l. l ≡ fields_so member.now (view value.now)) }
{
    build_map(alloc, &Field, value, member)
}

/// An event type.
#[derive(Drop)]
pub(crate) struct EventItem;

impl Build<EventType> for EventItem {
    ghost fits = { λ _. IsEventType };

    ghost built = { λ _. event_type_of };

    fn build(&self, alloc: Global, value: &Value) -> Result<EventType, NoMemory> {
        Ok(EventType {
            key: name_at(alloc, value, "key")?,
            id: id_at(alloc, value)?,
            fields: fields_at(alloc, value, "fields")?,
        })
    }
}

/// A profile specification.
#[derive(Drop)]
pub(crate) struct ProfileItem;

impl Build<ProfileSpec> for ProfileItem {
    ghost fits = { λ _. IsProfile };

    ghost built = { λ _. profile_of };

    fn build(&self, alloc: Global, value: &Value) -> Result<ProfileSpec, NoMemory> {
        Ok(ProfileSpec {
            key: name_at(alloc, value, "key")?,
            id: id_at(alloc, value)?,
            attributes: fields_at(alloc, value, "attributes")?,
            unique: build_list(alloc, &NameValue, value, "unique")?,
        })
    }
}

/// A child relation.
#[derive(Drop)]
pub(crate) struct RelationEntry;

impl BuildEntry<Relation> for RelationEntry {
    ghost fits_entry = { λ _. IsRelation };

    ghost built_entry = { λ _. relation_of };

    fn build_entry(&self, alloc: Global, name: &str, value: &Value) -> Result<Relation, NoMemory> {
        Ok(Relation {
            name: name_of(alloc, name)?,
            block: name_at(alloc, value, "block")?,
            priority: priority_at(value),
        })
    }
}

/// A service.
#[derive(Drop)]
pub(crate) struct ServiceItem;

impl Build<Service> for ServiceItem {
    ghost fits = { λ _. IsService };

    ghost built = { λ _. service_of };

    fn build(&self, alloc: Global, value: &Value) -> Result<Service, NoMemory> {
        Ok(Service {
            key: name_at(alloc, value, "key")?,
            id: id_at(alloc, value)?,
            root: name_at(alloc, value, "root")?,
            priority: priority_at(value),
            active: flag_at(value, "active"),
        })
    }
}
