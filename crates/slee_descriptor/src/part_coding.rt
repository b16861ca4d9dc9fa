//! What scripts see of declared names, events, tables and services.
ghost use Rattle.std.specs.Prelude.{◌≡◌, [], IfOk, map, slice_get};
ghost use Rattle.std.specs.Option.{option_map_or};
ghost use Rattle.slee_descriptor.specs.CodesOfParts.{table_code};
ghost use Rattle.slee_descriptor.specs.Keys.{number_in};
ghost use Rattle.deploy_model.specs.Resolving.{number_of as number_so, field_of, event_of};

use crate::coding::{Coding, named_by};
use crate::keys::Keys;
use deploy_model::{EventType, ProfileSpec, Service, Table};
use script_types::{EventCode, FieldCode, NamedList, TableCode};
use slee_value::{Kind, Name, NoMemory};
use std::alloc::Global;

/// A declared name with its type.
#[derive(Drop)]
pub(crate) struct FieldCoding;

impl Coding<(Name, Kind), FieldCode> for FieldCoding {
    ghost code = { λ _ f. field_of f };

    fn code(&self, alloc: Global, part: &(Name, Kind)) -> Result<FieldCode, NoMemory> {
        Ok(FieldCode {
            name: part.0.copy(alloc)?,
            kind: part.1,
        })
    }
}

/// Declared names with their types.
pub(crate) fn field_codes(
    alloc: Global,
    fields: &[(Name, Kind)],
) -> Result<NamedList<FieldCode>, NoMemory>
    ensures { IfOk result (λ l. l ≡ map field_of fields.now) }
{
    named_by(alloc, &FieldCoding, fields)
}

/// An event type.
#[derive(Drop)]
pub(crate) struct EventCoding;

impl Coding<EventType, EventCode> for EventCoding {
    ghost code = { λ _ e. event_of e };

    fn code(&self, alloc: Global, part: &EventType) -> Result<EventCode, NoMemory> {
        let name = part.key.copy(alloc)?;
        let fields = field_codes(alloc, part.fields.as_slice())?;
        Ok(EventCode { name, fields })
    }
}

/// A service, of which scripts know the key alone.
#[derive(Drop)]
pub(crate) struct ServiceCoding;

impl Coding<Service, Name> for ServiceCoding {
    ghost code = { λ _ s. s.key };

    fn code(&self, alloc: Global, part: &Service) -> Result<Name, NoMemory> {
        part.key.copy(alloc)
    }
}

/// The number of what a key names.
pub(crate) fn number_of(keys: &Keys, key: &Name) -> u32
    ensures { result ≡ number_so (number_in keys.now) key.now }
{
    match keys.get(key.as_str()) {
        Some(number) => number,
        None => 0,
    }
}

/// The attributes of the profile of this number.
fn profile_codes(
    alloc: Global,
    profiles: &[ProfileSpec],
    number: u32,
) -> Result<NamedList<FieldCode>, NoMemory>
    ensures { IfOk result (λ l. l ≡ option_map_or (λ p. map field_of p.attributes) (slice_get profiles.now number) []) }
{
    match profiles.get(number as usize) {
        Some(profile) => field_codes(alloc, profile.attributes.as_slice()),
        None => Ok(NamedList::new(alloc)),
    }
}

/// A table, with its profile's attributes.
#[derive(Drop)]
pub(crate) struct TableCoding<'a> {
    pub keys: &'a Keys,
    pub profiles: &'a [ProfileSpec],
}

impl<'a> Coding<Table, TableCode> for TableCoding<'a> {
    ghost code = { λ s t. table_code (number_in s.keys.now) s.profiles.now t };

    fn code(&self, alloc: Global, part: &Table) -> Result<TableCode, NoMemory> {
        let name = part.name.copy(alloc)?;
        let number = number_of(self.keys, &part.profile);
        let attributes = profile_codes(alloc, self.profiles, number)?;
        Ok(TableCode { name, attributes })
    }
}
