//! Keys by which a script asks, with names that are lent.
ghost use Rattle.std.specs.Prelude.{◌≡◌, IfOk};
ghost use Rattle.script_run_machine.specs.Asking.{asked_number, key_asked};

use script_meaning::Key;
use script_types::Symbol;
use slee_value::{ActivityId, EntityId, Name, NoMemory, Text, TimerId};
use std::alloc::Global;

/// A key by which a script asks, with names that are lent.
#[derive(Debug, Clone, Copy)]
pub enum Asked<'a> {
    Field(EntityId, &'a Symbol<Name>),
    Children(EntityId, &'a Symbol<Name>),
    Priority(EntityId),
    AcState(ActivityId),
    Attr(ActivityId, &'a Symbol<Text>),
    Attached(EntityId, ActivityId),
    Mask(EntityId, ActivityId),
    Named(&'a str),
    Timer(TimerId),
    Profile(&'a Symbol<Name>, &'a str),
    Now,
    Activities(EntityId),
}

impl<'a> Asked<'a> {
    /// The key that is kept.
    pub(crate) fn to_key(&self, alloc: Global) -> Result<Key, NoMemory>
        ensures { IfOk result (λ key. key ≡ key_asked self.now) }
    {
        match self {
            Asked::Field(entity, name) => Ok(Key::Field(*entity, name.name.copy(alloc)?)),
            Asked::Children(entity, name) => Ok(Key::Children(*entity, name.name.copy(alloc)?)),
            Asked::Priority(entity) => Ok(Key::Priority(*entity)),
            Asked::AcState(activity) => Ok(Key::AcState(*activity)),
            Asked::Attr(activity, name) => Ok(Key::Attr(*activity, name.name.copy(alloc)?)),
            Asked::Attached(entity, activity) => Ok(Key::Attached(*entity, *activity)),
            Asked::Mask(entity, activity) => Ok(Key::Mask(*entity, *activity)),
            Asked::Named(name) => Ok(Key::Named(Text::from_str(alloc, name)?)),
            Asked::Timer(timer) => Ok(Key::Timer(*timer)),
            Asked::Profile(table, name) => {
                Ok(Key::Profile(table.name.copy(alloc)?, Text::from_str(alloc, name)?))
            }
            Asked::Now => Ok(Key::Now),
            Asked::Activities(entity) => Ok(Key::Activities(*entity)),
        }
    }

    /// The number of its name.
    pub(crate) fn number(&self) -> Option<usize>
        ensures { result ≡ asked_number self.now }
    {
        match self {
            Asked::Field(_, name) => name.number,
            Asked::Children(_, relation) => relation.number,
            Asked::Attr(_, key) => key.number,
            Asked::Profile(table, _) => table.number,
            _ => None,
        }
    }
}
