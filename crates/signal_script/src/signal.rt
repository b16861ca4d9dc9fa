//! What a line says.
ghost use Rattle.std.specs.Prelude.{◌≡◌, IfOk};

use crate::{Fields, Word};
use slee_value::{Name, NoMemory};
use std::alloc::Global;

/// What a line says.
#[derive(Debug, Drop)]
pub enum Signal {
    /// An external activity starts.
    Start {
        name: Name,
    },
    /// An external activity ends.
    End {
        name: Name,
    },
    /// An event is fired on an external activity, for one service alone where it names one.
    Fire {
        name: Name,
        event: Word,
        service: Option<Name>,
        fields: Fields,
    },
    /// The clock comes to this moment, in milliseconds.
    Clock {
        to: u64,
    },
    /// A service becomes active.
    Activate {
        service: Name,
    },
    /// A service is stopped.
    Deactivate {
        service: Name,
    },
    /// A table gets a row with these attributes.
    ProfileAdd {
        table: Name,
        row: Word,
        fields: Fields,
    },
    /// A row gets these attributes in place of those that it has.
    ProfileUpdate {
        table: Name,
        row: Word,
        fields: Fields,
    },
    /// A row goes.
    ProfileRemove {
        table: Name,
        row: Word,
    },
}

impl Signal {
    pub fn copy(&self, alloc: Global) -> Result<Self, NoMemory>
        ensures { IfOk result (λ signal. signal ≡ self.now) }
    {
        Ok(match self {
            Signal::Start { name } => Signal::Start {
                name: name.copy(alloc)?,
            },
            Signal::End { name } => Signal::End {
                name: name.copy(alloc)?,
            },
            Signal::Fire {
                name,
                event,
                service,
                fields,
            } => Signal::Fire {
                name: name.copy(alloc)?,
                event: event.copy(alloc)?,
                service: copy_service(service, alloc)?,
                fields: fields.copy(alloc)?,
            },
            Signal::Clock { to } => Signal::Clock { to: *to },
            Signal::Activate { service } => Signal::Activate {
                service: service.copy(alloc)?,
            },
            Signal::Deactivate { service } => Signal::Deactivate {
                service: service.copy(alloc)?,
            },
            Signal::ProfileAdd { table, row, fields } => Signal::ProfileAdd {
                table: table.copy(alloc)?,
                row: row.copy(alloc)?,
                fields: fields.copy(alloc)?,
            },
            Signal::ProfileUpdate { table, row, fields } => Signal::ProfileUpdate {
                table: table.copy(alloc)?,
                row: row.copy(alloc)?,
                fields: fields.copy(alloc)?,
            },
            Signal::ProfileRemove { table, row } => Signal::ProfileRemove {
                table: table.copy(alloc)?,
                row: row.copy(alloc)?,
            },
        })
    }
}

fn copy_service(service: &Option<Name>, alloc: Global) -> Result<Option<Name>, NoMemory>
    ensures { IfOk result (λ copied. copied ≡ service.now) }
{
    match service {
        None => Ok(None),
        Some(service) => Ok(Some(service.copy(alloc)?)),
    }
}
