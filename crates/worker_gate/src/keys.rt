//! Keys that handlers asked for: told anew for another ticket, and compared.
ghost use Rattle.std.specs.Prelude.{◌≡◌};
ghost use Rattle.script_meaning.specs.Seeing.{same_key};

use script_meaning::Key;
use slee_value::{ActivityId, EntityId, NoMemory};
use std::alloc::Global;
use tx_attempt::Ticket;

/// Whom a handler is run for.
#[derive(Clone, Copy)]
pub(crate) struct Subject {
    pub(crate) entity: EntityId,
    pub(crate) activity: ActivityId,
}

impl Subject {
    /// Whom the handler of a ticket is run for.
    pub(crate) fn of(ticket: &Ticket) -> Subject {
        Subject {
            entity: ticket.entity,
            activity: ticket.activity,
        }
    }

    fn is(self, entity: EntityId) -> bool {
        self.entity.0 == entity.0
    }

    fn is_on(self, activity: ActivityId) -> bool {
        self.activity.0 == activity.0
    }
}

/// A key that a handler asked for, with the entity and the activity for which it is run now in place of those for which it was
/// run; none where the key names others.
pub(crate) fn told_anew(
    alloc: Global,
    key: &Key,
    before: Subject,
    now: Subject,
) -> Result<Option<Key>, NoMemory> {
    let (entity, activity) = (now.entity, now.activity);
    let told = match key {
        Key::Field(e, name) if before.is(*e) => Key::Field(entity, name.copy(alloc)?),
        Key::Children(e, name) if before.is(*e) => Key::Children(entity, name.copy(alloc)?),
        Key::Priority(e) if before.is(*e) => Key::Priority(entity),
        Key::AcState(a) if before.is_on(*a) => Key::AcState(activity),
        Key::Attr(a, name) if before.is_on(*a) => Key::Attr(activity, name.copy(alloc)?),
        Key::Attached(e, a) if before.is(*e) && before.is_on(*a) => Key::Attached(entity, activity),
        Key::Mask(e, a) if before.is(*e) && before.is_on(*a) => Key::Mask(entity, activity),
        Key::Activities(e) if before.is(*e) => Key::Activities(entity),
        Key::Named(name) => Key::Named(name.copy(alloc)?),
        Key::Profile(table, row) => Key::Profile(table.copy(alloc)?, row.copy(alloc)?),
        Key::Now => Key::Now,
        _ => return Ok(None),
    };
    Ok(Some(told))
}

/// Whether two keys are the same.
pub(crate) fn is_same_key(one: &Key, other: &Key) -> bool
    ensures { result ≡ same_key one.now other.now }
{
    match (one, other) {
        (Key::Next(a), Key::Next(b)) => a.0 == b.0,
        (Key::Field(e, x), Key::Field(f, y)) => e.0 == f.0 && x.as_bytes() == y.as_bytes(),
        (Key::Children(e, x), Key::Children(f, y)) => e.0 == f.0 && x.as_bytes() == y.as_bytes(),
        (Key::Priority(e), Key::Priority(f)) => e.0 == f.0,
        (Key::AcState(a), Key::AcState(b)) => a.0 == b.0,
        (Key::Attr(a, x), Key::Attr(b, y)) => a.0 == b.0 && x.as_bytes() == y.as_bytes(),
        (Key::Attached(e, a), Key::Attached(f, b)) => e.0 == f.0 && a.0 == b.0,
        (Key::Mask(e, a), Key::Mask(f, b)) => e.0 == f.0 && a.0 == b.0,
        (Key::Named(x), Key::Named(y)) => x.as_bytes() == y.as_bytes(),
        (Key::Timer(t), Key::Timer(u)) => t.0 == u.0,
        (Key::Profile(t, x), Key::Profile(u, y)) => {
            t.as_bytes() == u.as_bytes() && x.as_bytes() == y.as_bytes()
        }
        (Key::Now, Key::Now) => true,
        (Key::Activities(e), Key::Activities(f)) => e.0 == f.0,
        _ => false,
    }
}
