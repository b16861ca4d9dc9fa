//! Effects of three parts and more, each made of its parts in order.
ghost use Rattle.std.specs.Prelude.{◌≡◌};
ghost use Rattle.slee_effect.specs.declared.effect.Effect.TheVariants.{SetField, SetAttr, Create, SetMask, Fire, SetTimer, Usage};

use crate::{Effect, FiredFields, Ref, Val};
use slee_value::{Keep, Text};

pub(crate) fn set_field(entity: Ref, name: Text, value: Val) -> Effect
    ensures { result ≡ SetField entity name value }
{
    Effect::SetField {
        entity,
        name,
        value,
    }
}

pub(crate) fn set_attr(activity: Ref, key: Text, value: Val) -> Effect
    ensures { result ≡ SetAttr activity key value }
{
    Effect::SetAttr {
        activity,
        key,
        value,
    }
}

pub(crate) fn create(parent: Ref, relation: Text, priority: i8) -> Effect
    ensures { result ≡ Create parent relation priority }
{
    Effect::Create {
        parent,
        relation,
        priority,
    }
}

pub(crate) fn set_mask(entity: Ref, activity: Ref, event: Text, on: bool) -> Effect
    ensures { result ≡ SetMask entity activity event on }
{
    Effect::SetMask {
        entity,
        activity,
        event,
        on,
    }
}

pub(crate) fn fire(activity: Ref, event: Text, service: Option<Text>, fields: FiredFields) -> Effect
    ensures { result ≡ Fire activity event service fields }
{
    Effect::Fire {
        activity,
        event,
        service,
        fields,
    }
}

pub(crate) fn set_timer(activity: Ref, start: u64, period: u64, times: u64, keep: Keep) -> Effect
    ensures { result ≡ SetTimer activity start period times keep }
{
    Effect::SetTimer {
        activity,
        start,
        period,
        times,
        keep,
    }
}

pub(crate) fn usage(entity: Ref, name: Text, amount: i64) -> Effect
    ensures { result ≡ Usage entity name amount }
{
    Effect::Usage {
        entity,
        name,
        amount,
    }
}
