//! References to what effects create, replaced by the numbers that it gets.
ghost use Rattle.std.specs.Prelude.{◌≡◌, ◌+◌, ◌<◌, ◌^◌, map};
ghost use Rattle.std.specs.List.{AllByRecursion};
ghost use Rattle.slee_effect.specs.Resolving.{resolved_ref, resolved_val, resolved_field, resolved_effect, CanResolveRef, CanResolveVal, CanResolveField, CanResolve};

use crate::next::Next;
use crate::{Effect, FiredFields, Ref, Val};
use slee_value::{ActivityId, Text, TimerId, Value};

/// Puts numbers in place of what the effects create.
pub(crate) fn resolve_all(effects: &mut [Effect], next: Next)
    requires { AllByRecursion (CanResolve next) effects.old }
    ensures { effects.new ≡ map (resolved_effect next) effects.old }
{
    for effect in effects.iter_mut() {
        resolve_one(effect, next);
    }
}

/// The same in the values of fields.
pub(crate) fn resolve_fields(fields: &mut [(Text, Val)], next: Next)
    requires { AllByRecursion (CanResolveField next) fields.old }
    ensures { fields.new ≡ map (resolved_field next) fields.old }
{
    for field in fields.iter_mut() {
        resolve_val(&mut field.1, next);
    }
}

fn resolve_one(effect: &mut Effect, next: Next)
    requires { CanResolve next effect.old }
    ensures { effect.new ≡ resolved_effect next effect.old }
{
    match effect {
        Effect::SetField { entity, value, .. } => {
            resolve_ref(entity, next.entity);
            resolve_val(value, next);
        }
        Effect::SetAttr {
            activity,
            value,
            ..
        } => {
            resolve_ref(activity, next.activity);
            resolve_val(value, next);
        }
        Effect::Create { parent, .. } => resolve_ref(parent, next.entity),
        Effect::Remove { entity } => resolve_ref(entity, next.entity),
        Effect::SetPriority { entity, .. } => resolve_ref(entity, next.entity),
        Effect::Attach { entity, activity } => resolve_two(entity, activity, next),
        Effect::Detach { entity, activity } => resolve_two(entity, activity, next),
        Effect::SetMask {
            entity,
            activity,
            ..
        } => resolve_two(entity, activity, next),
        Effect::Fire {
            activity,
            fields,
            ..
        } => {
            resolve_ref(activity, next.activity);
            fields.resolve(next);
        }
        Effect::NewNull => {}
        Effect::EndNull { activity } => resolve_ref(activity, next.activity),
        Effect::SetTimer { activity, .. } => resolve_ref(activity, next.activity),
        Effect::CancelTimer { timer } => resolve_ref(timer, next.timer),
        Effect::Bind { activity, .. } => resolve_ref(activity, next.activity),
        Effect::Unbind { .. } => {}
        Effect::Emit { entity, .. } => resolve_ref(entity, next.entity),
        Effect::Usage { entity, .. } => resolve_ref(entity, next.entity),
        Effect::Suspend { activity, .. } => resolve_ref(activity, next.activity),
        Effect::Resume { activity } => resolve_ref(activity, next.activity),
    }
}

fn resolve_two(entity: &mut Ref, activity: &mut Ref, next: Next)
    requires entity { CanResolveRef next.entity entity.old }
    requires activity { CanResolveRef next.activity activity.old }
    ensures entity { entity.new ≡ resolved_ref next.entity entity.old }
    ensures activity { activity.new ≡ resolved_ref next.activity activity.old }
{
    resolve_ref(entity, next.entity);
    resolve_ref(activity, next.activity);
}

fn resolve_ref(one: &mut Ref, next: u64)
    requires { CanResolveRef next one.old }
    ensures { one.new ≡ resolved_ref next one.old }
{
    if let Ref::Fresh(place) = *one {
        *one = Ref::Known(next + u64::from(place));
    }
}

fn resolve_val(value: &mut Val, next: Next)
    requires { CanResolveVal next value.old }
    ensures { value.new ≡ resolved_val next value.old }
{
    match value {
        Val::Plain(_) => {}
        Val::NewActivity(place) => {
            let number = next.activity + u64::from(*place);
            *value = Val::Plain(Value::Activity(ActivityId(number)));
        }
        Val::NewTimer(place) => {
            let number = next.timer + u64::from(*place);
            *value = Val::Plain(Value::Timer(TimerId(number)));
        }
    }
}
