//! Copies of keys and of what is seen at them.
ghost use Rattle.std.specs.Prelude.{◌≡◌, IfOk};

use script_meaning::{Ids, Key, Seen};
use slee_value::{Names, NoMemory, Payload, Value};
use std::alloc::Global;

/// A copy of a key.
pub(crate) fn copied_key(alloc: Global, key: &Key) -> Result<Key, NoMemory>
    ensures { IfOk result (λ k. k ≡ key.now) }
{
    match key {
        Key::Next(activity) => Ok(Key::Next(*activity)),
        Key::Field(entity, name) => Ok(Key::Field(*entity, name.copy(alloc)?)),
        Key::Children(entity, name) => Ok(Key::Children(*entity, name.copy(alloc)?)),
        Key::Priority(entity) => Ok(Key::Priority(*entity)),
        Key::AcState(activity) => Ok(Key::AcState(*activity)),
        Key::Attr(activity, key) => Ok(Key::Attr(*activity, key.copy(alloc)?)),
        Key::Attached(entity, activity) => Ok(Key::Attached(*entity, *activity)),
        Key::Mask(entity, activity) => Ok(Key::Mask(*entity, *activity)),
        Key::Named(name) => Ok(Key::Named(name.copy(alloc)?)),
        Key::Timer(timer) => Ok(Key::Timer(*timer)),
        Key::Profile(table, row) => Ok(Key::Profile(table.copy(alloc)?, row.copy(alloc)?)),
        Key::Now => Ok(Key::Now),
        Key::Activities(entity) => Ok(Key::Activities(*entity)),
    }
}

fn copied_value(alloc: Global, value: &Option<Value>) -> Result<Option<Value>, NoMemory>
    ensures { IfOk result (λ v. v ≡ value.now) }
{
    match value {
        None => Ok(None),
        Some(value) => Ok(Some(value.copy(alloc)?)),
    }
}

fn copied_ids(alloc: Global, ids: &Ids) -> Result<Ids, NoMemory>
    ensures { IfOk result (λ i. i ≡ ids.now) }
{
    let numbers = Vec::from_slice(alloc, ids.as_slice())?;
    Ok(Ids::from_vec(numbers))
}

fn copied_names(alloc: Global, names: &Option<Names>) -> Result<Option<Names>, NoMemory>
    ensures { IfOk result (λ n. n ≡ names.now) }
{
    match names {
        None => Ok(None),
        Some(names) => Ok(Some(names.copy(alloc)?)),
    }
}

fn copied_row(alloc: Global, row: &Option<Payload>) -> Result<Option<Payload>, NoMemory>
    ensures { IfOk result (λ r. r ≡ row.now) }
{
    match row {
        None => Ok(None),
        Some(row) => Ok(Some(row.copy(alloc)?)),
    }
}

/// A copy of what is seen.
pub(crate) fn copied_seen(alloc: Global, seen: &Seen) -> Result<Seen, NoMemory>
    ensures { IfOk result (λ s. s ≡ seen.now) }
{
    match seen {
        Seen::Next(delivery) => Ok(Seen::Next(*delivery)),
        Seen::Held(value) => Ok(Seen::Held(copied_value(alloc, value)?)),
        Seen::Ids(ids) => Ok(Seen::Ids(copied_ids(alloc, ids)?)),
        Seen::Number(number) => Ok(Seen::Number(*number)),
        Seen::Ac(activity) => Ok(Seen::Ac(*activity)),
        Seen::Flag(flag) => Ok(Seen::Flag(*flag)),
        Seen::Masks(names) => Ok(Seen::Masks(copied_names(alloc, names)?)),
        Seen::Refers(activity) => Ok(Seen::Refers(*activity)),
        Seen::Row(row) => Ok(Seen::Row(copied_row(alloc, row)?)),
    }
}
