//! Copies of what the stores lend.
ghost use Rattle.std.specs.Prelude.{◌≡◌, IfOk, IsTrue, map, option_copied};
ghost use Rattle.slee_value.specs.Order.{rises};
ghost use Rattle.script_meaning.specs.declared.seen.Seen.TheVariants as seen;

use router_state::Mask;
use rows_index::Entry;
use rows_leaves::Run;
use script_meaning::{Ids, Seen};
use slee_value::{EntityId, Names, NoMemory, Payload, Text, Value};
use std::alloc::Global;

/// A copy of a value, if there is one.
pub fn held(alloc: Global, value: Option<&Value>) -> Result<Seen, NoMemory>
    ensures { IfOk result (λ s. s ≡ seen.Held (option_copied value.entry)) }
{
    match value {
        Some(value) => Ok(Seen::Held(Some(value.copy(alloc)?))),
        None => Ok(Seen::Held(None)),
    }
}

/// A copy of the attributes of a row, if there is one.
pub fn copied_row(alloc: Global, row: Option<&Payload>) -> Result<Seen, NoMemory>
    ensures { IfOk result (λ s. s ≡ seen.Row (option_copied row.entry)) }
{
    match row {
        Some(attributes) => Ok(Seen::Row(Some(attributes.copy(alloc)?))),
        None => Ok(Seen::Row(None)),
    }
}

/// The numbers of these entities.
pub fn numbers(alloc: Global, entities: &[EntityId]) -> Result<Ids, NoMemory>
    ensures { IfOk result (λ ids. ids ≡ map (λ e. e.0) entities.now) }
{
    let mut ids = Ids::new(alloc);
    'entities: for entity in entities {
        ids.push(entity.0)?;
    }
    Ok(ids)
}

/// The numbers that these entries have.
pub fn numbers_in(alloc: Global, entries: Run<'_, Entry>) -> Result<Ids, NoMemory>
    ensures { IfOk result (λ ids. ids ≡ map (λ entry. entry.number) entries.entry) }
{
    let mut ids = Ids::new(alloc);
    'entries: for entry in entries {
        ids.push(entry.number)?;
    }
    Ok(ids)
}

fn events_of(alloc: Global, masks: Run<'_, Mask>) -> Result<Vec<Text>, NoMemory>
    ensures { IfOk result (λ v. v.items ≡ map (λ m. m.event) masks.entry) }
{
    let mut events = Vec::new(alloc);
    'masks: for mask in masks {
        events.push(mask.event.copy(alloc)?)?;
    }
    Ok(events)
}

/// The events of these masks.
pub fn names(alloc: Global, masks: Run<'_, Mask>) -> Result<Names, NoMemory>
    requires { IsTrue (rises (map (λ m. m.event) masks)) }
    ensures { IfOk result (λ names. names ≡ map (λ m. m.event) masks.entry) }
{
    let events = events_of(alloc, masks)?;
    Ok(Names::from_vec(events))
}
