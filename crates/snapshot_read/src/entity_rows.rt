//! The rows of entities.
ghost use Rattle.std.specs.Prelude.{◌≡◌, ◌++◌, [], OnOk, option_map};
ghost use Rattle.std.specs.List.{cons_option, list_all};
ghost use Rattle.snapshot_read.specs.Holding.{AreEntityRows, Holds, WithEntity, holds_entity};

use crate::ReadFault;
use crate::holding::{add_fields, stem_of};
use crate::parts::EntityPart;
use router_state::{Entity, Field, RootName};
use slee_value::{ConvName, EntityId, NoMemory};
use std::alloc::Global;

/// Entities, and what belongs to them.
#[derive(Drop)]
pub(crate) struct EntityRows {
    pub(crate) entities: Vec<Entity>,
    pub(crate) root_names: Vec<RootName>,
    pub(crate) fields: Vec<Field>,
}

/// Adds the convergence name of an entity, if it has one.
fn add_name(
    entity: EntityId,
    name: Option<ConvName>,
    names: &mut Vec<RootName>,
) -> Result<(), NoMemory>
    ensures { OnOk result (names.new.items ≡ names.old.items ++ cons_option (option_map (λ name. record { entity = entity; name = name }) name) []) }
{
    match name {
        Some(name) => {
            names.push(RootName { entity, name })?;
            Ok(())
        }
        None => Ok(()),
    }
}

/// Adds the rows of an entity.
fn add_entity(alloc: Global, part: EntityPart, rows: &mut EntityRows) -> Result<(), ReadFault>
    ensures { Holds (λ _. WithEntity part rows.old rows.new) (holds_entity part) result }
{
    let EntityPart {
        number,
        block,
        stem,
        priority,
        name,
        fields,
    } = part;
    let entity = EntityId(number);
    rows.entities.push(Entity {
        number: entity,
        block,
        stem: stem_of(alloc, &stem)?,
        priority,
    })?;
    add_name(entity, name, &mut rows.root_names)?;
    add_fields(alloc, entity, fields, &mut rows.fields)?;
    Ok(())
}

/// The rows of entities, in their order.
pub(crate) fn entity_rows(alloc: Global, parts: Vec<EntityPart>) -> Result<EntityRows, ReadFault>
    ensures { Holds (AreEntityRows parts.items) (list_all holds_entity parts.items) result }
{
    let mut rows = EntityRows {
        entities: Vec::new(alloc),
        root_names: Vec::new(alloc),
        fields: Vec::new(alloc),
    };
    'parts: for part in parts {
        add_entity(alloc, part, &mut rows)?;
    }
    Ok(rows)
}
