//! What resolved effects name: what is new has its number.
ghost use Rattle.std.specs.Prelude.{◌≡◌, IfOk};
ghost use Rattle.router_steps.specs.Effects.{number_in, plain};

use slee_effect::{Ref, Val};
use slee_value::{ActivityId, EntityId, NoMemory, TimerId, Value};
use std::alloc::Global;

/// The number of a reference that is resolved.
fn number(reference: Ref) -> u64
    ensures { result ≡ number_in reference }
{
    match reference {
        Ref::Known(number) => number,
        Ref::Fresh(_) => 0,
    }
}

/// The entity that is meant.
pub(crate) fn entity(reference: Ref) -> EntityId
    ensures { result.0 ≡ number_in reference }
{
    EntityId(number(reference))
}

/// The activity that is meant.
pub(crate) fn activity(reference: Ref) -> ActivityId
    ensures { result.0 ≡ number_in reference }
{
    ActivityId(number(reference))
}

/// The timer that is meant.
pub(crate) fn timer(reference: Ref) -> TimerId
    ensures { result.0 ≡ number_in reference }
{
    TimerId(number(reference))
}

/// The value of a resolved effect.
pub(crate) fn plain(alloc: Global, value: &Val) -> Result<Value, NoMemory>
    ensures { IfOk result (λ v. v ≡ plain value.now) }
{
    match value {
        Val::Plain(value) => value.copy(alloc),
        Val::NewActivity(_) => Ok(Value::Activity(ActivityId(0))),
        Val::NewTimer(_) => Ok(Value::Timer(TimerId(0))),
    }
}
