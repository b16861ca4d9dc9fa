//! Whether what was seen is seen still.
ghost use Rattle.std.specs.Prelude.{◌≡◌};
ghost use Rattle.handler_run.specs.Views.{conflict};
ghost use Rattle.tx_attempt.specs.Checking.{Checks, Stops};
ghost use Rattle.tx_attempt.specs.declared.check.CheckStop.TheVariants as stops;

use crate::Attempt;
use crate::copies::{copied_key, copied_seen};
use crate::same::is_same_seen;
use handler_run::View;
use script_meaning::{Key, Seen};
use slee_value::NoMemory;
use std::alloc::Global;

/// Why a check doesn't go through.
#[derive(Debug, Drop)]
pub enum CheckStop {
    /// The first key at which something else is seen now.
    Conflict { key: Key, saw: Seen, found: Seen },
    NoMemory,
}

impl From<NoMemory> for CheckStop {
    ghost from_gives = { λ _ e. e ≡ stops.NoMemory };

    fn from(_: NoMemory) -> Self {
        CheckStop::NoMemory
    }
}

/// What was seen at a key, where something else is seen there now.
fn conflict_at(alloc: Global, key: &Key, saw: &Seen, found: Seen) -> CheckStop
    ensures { Stops key.now saw.now found result }
{
    match (copied_key(alloc, key), copied_seen(alloc, saw)) {
        (Ok(key), Ok(saw)) => CheckStop::Conflict { key, saw, found },
        _ => CheckStop::NoMemory,
    }
}

/// Looks at each key in order.
fn check_all<V: View>(alloc: Global, known: &[(Key, Seen)], view: &V) -> Result<(), CheckStop>
    ensures { Checks (conflict (V.seen_at view.now) known.now) result }
{
    'known: for (key, saw) in known {
        let found = view.look(alloc, key)?;
        if !is_same_seen(saw, &found) {
            return Err(conflict_at(alloc, key, saw, found));
        }
    }
    Ok(())
}

impl Attempt {
    /// Whether all that the attempt knows is seen so now, or the first that isn't.
    pub fn check<V: View>(&self, view: &V) -> Result<(), CheckStop>
        ensures { Checks (conflict (V.seen_at view.now) self.now.known) result }
    {
        check_all(self.alloc, self.known.as_slice(), view)
    }
}
