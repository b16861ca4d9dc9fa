//! Names, and named values, that rows can hold.
ghost use Rattle.std.specs.Prelude.{◌≡◌, ◌++◌, map, IfOk, IsTrue};
ghost use Rattle.std.specs.List.{list_all};
ghost use Rattle.slee_value.specs.Fields.{are_fields};
ghost use Rattle.slee_value.specs.Name.{is_name};
ghost use Rattle.slee_value.specs.Order.{is_below, names_of, rises};
ghost use Rattle.snapshot_read.specs.Holding.{Holds};
ghost use Rattle.snapshot_read.specs.Names.{is_kind_named, is_stem_named};
ghost use Rattle.snapshot_read.specs.Parts.{kind_of, stem_of};

use crate::ReadFault;
use crate::parts::{Pair, PartKind, PartStem};
use router_state::{AcKind, Field, Stem};
use slee_value::{EntityId, Name, Payload, Text, Value};
use std::alloc::Global;
use std::cmp::Ordering;

/// The name that a text is.
fn name_of(alloc: Global, text: &Text) -> Result<Name, ReadFault>
    ensures held { Holds (λ name. name ≡ text.now) (is_name text.now) result }
    ensures named { IfOk result (λ name. IsTrue (is_name name)) }
{
    let bytes = text.as_bytes();
    if !Name::is_name(bytes) {
        return Err(ReadFault::Bad);
    }
    Ok(Name::from_slice(alloc, bytes)?)
}

/// Where an entity stands, its relation a name.
pub(crate) fn stem_of(alloc: Global, stem: &PartStem) -> Result<Stem, ReadFault>
    ensures { Holds (λ held. held ≡ stem_of stem.now) (is_stem_named (stem_of stem.now)) result }
{
    match stem {
        PartStem::Root(service) => Ok(Stem::Root(*service)),
        PartStem::Child(parent, relation) => Ok(Stem::Child(*parent, name_of(alloc, relation)?)),
    }
}

/// What an activity stands for, its name a name.
pub(crate) fn kind_of(alloc: Global, kind: &PartKind) -> Result<AcKind, ReadFault>
    ensures { Holds (λ held. held ≡ kind_of kind.now) (is_kind_named (kind_of kind.now)) result }
{
    match kind {
        PartKind::External(name) => Ok(AcKind::External(name_of(alloc, name)?)),
        PartKind::Null => Ok(AcKind::Null),
        PartKind::Service(service) => Ok(AcKind::Service(*service)),
        PartKind::Table(table) => Ok(AcKind::Table(*table)),
    }
}

/// A name with its value.
fn field_of(alloc: Global, pair: Pair) -> Result<(Name, Value), ReadFault>
    ensures held { Holds (λ field. field ≡ pair) (is_name pair.0) result }
    ensures named { IfOk result (λ field. IsTrue (is_name field.0)) }
{
    let Pair { name, value } = pair;
    Ok((name_of(alloc, &name)?, value))
}

/// Adds the fields of an entity.
pub(crate) fn add_fields(
    alloc: Global,
    entity: EntityId,
    pairs: Vec<Pair>,
    fields: &mut Vec<Field>,
) -> Result<(), ReadFault>
    ensures { Holds (λ _. fields.new.items ≡ fields.old.items ++ map (λ f. record { entity = entity; name = f.0; value = f.1 }) pairs.items) (list_all (λ f. is_name f.0) pairs.items) result }
{
    'pairs: for pair in pairs {
        let (name, value) = field_of(alloc, pair)?;
        fields.push(Field {
            entity,
            name,
            value,
        })?;
    }
    Ok(())
}

/// Names with their values.
fn named_values(alloc: Global, pairs: Vec<Pair>) -> Result<Vec<(Name, Value)>, ReadFault>
    ensures held { Holds (λ fields. fields.items ≡ pairs.items) (list_all (λ f. is_name f.0) pairs.items) result }
    ensures named { IfOk result (λ fields. IsTrue (list_all is_name (names_of fields.items))) }
{
    let mut fields = Vec::with_capacity(alloc, pairs.len())?;
    'pairs: for pair in pairs {
        fields.push(field_of(alloc, pair)?)?;
    }
    Ok(fields)
}

fn is_below(one: &Name, other: &Name) -> bool
    ensures { result ≡ is_below one.now other.now }
{
    match one.compare(other) {
        Ordering::Less => true,
        Ordering::Equal | Ordering::Greater => false,
    }
}

/// Whether each name comes before the next.
fn are_rising(fields: &[(Name, Value)]) -> bool
    ensures { result ≡ rises (names_of fields.now) }
{
    let mut left = fields;
    'left: while let [first, rest @ ..] = left {
        match rest {
            [next, ..] if !is_below(&first.0, &next.0) => return false,
            _ => {}
        }
        left = rest;
    }
    true
}

/// Named values, the names rising.
pub(crate) fn payload_of(alloc: Global, pairs: Vec<Pair>) -> Result<Payload, ReadFault>
    ensures { Holds (λ fields. fields ≡ pairs.items) (are_fields pairs.items) result }
{
    let fields = named_values(alloc, pairs)?;
    if !are_rising(&fields) {
        return Err(ReadFault::Bad);
    }
    Ok(Payload::from_vec(fields))
}
