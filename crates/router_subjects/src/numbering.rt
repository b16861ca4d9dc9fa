//! That all which effects create can have numbers: places are numbers of 32 bits, and next numbers go on far enough.
ghost use Rattle.std.specs.Prelude.{◌≤◌, ◌^◌};
ghost use Rattle.std.specs.List.{AllByRecursion};
ghost use Rattle.slee_effect.specs.Resolving.{CanResolve, CanResolveField, CanResolveRef, CanResolveVal};

use slee_effect::{Effect, FiredFields, Ref, Val};
use slee_value::Text;

/// The next numbers, each at most 2 ^ 62.
#[derive(Clone, Copy)]
pub struct Numbers {
    pub entity: u64,
    pub activity: u64,
    pub timer: u64,
    pub ghost low_entity: { entity ≤ 2 ^ 62 },
    pub ghost low_activity: { activity ≤ 2 ^ 62 },
    pub ghost low_timer: { timer ≤ 2 ^ 62 },
}

/// A new thing's number is one of 64 bits.
fn pass_reference(next: u64, reference: Ref)
    requires { next ≤ 2 ^ 62 }
    ensures { CanResolveRef next reference }
{
    match reference {
        Ref::Known(_) => {}
        Ref::Fresh(_) => {}
    }
}

impl Numbers {
    fn pass_entity(self, entity: Ref)
        ensures { CanResolveRef self.entity entity }
    {
        pass_reference(self.entity, entity)
    }

    fn pass_activity(self, activity: Ref)
        ensures { CanResolveRef self.activity activity }
    {
        pass_reference(self.activity, activity)
    }

    fn pass_value(self, value: &Val)
        ensures { CanResolveVal (record { entity = self.entity; activity = self.activity; timer = self.timer }) value.now }
    {
        match value {
            Val::Plain(_) => {}
            Val::NewActivity(place) => {
                let _place = *place;
            }
            Val::NewTimer(place) => {
                let _place = *place;
            }
        }
    }

    fn pass_fields(self, fields: &[(Text, Val)])
        ensures { AllByRecursion (CanResolveField (record { entity = self.entity; activity = self.activity; timer = self.timer })) fields.now }
    {
        'fields: for (_, value) in fields {
            self.pass_value(value);
        }
    }

    fn pass_effect(self, effect: &Effect)
        ensures { CanResolve (record { entity = self.entity; activity = self.activity; timer = self.timer }) effect.now }
    {
        match effect {
            Effect::SetField { entity, value, .. } => {
                self.pass_entity(*entity);
                self.pass_value(value);
            }
            Effect::SetAttr {
                activity,
                value,
                ..
            } => {
                self.pass_activity(*activity);
                self.pass_value(value);
            }
            Effect::Create { parent: entity, .. }
            | Effect::Remove { entity }
            | Effect::SetPriority { entity, .. }
            | Effect::Emit { entity, .. }
            | Effect::Usage { entity, .. } => self.pass_entity(*entity),
            Effect::Attach { entity, activity }
            | Effect::Detach { entity, activity }
            | Effect::SetMask {
                entity,
                activity,
                ..
            } => {
                self.pass_entity(*entity);
                self.pass_activity(*activity);
            }
            Effect::Fire {
                activity,
                fields,
                ..
            } => {
                self.pass_activity(*activity);
                self.pass_fields(fields.as_slice());
            }
            Effect::EndNull { activity }
            | Effect::SetTimer { activity, .. }
            | Effect::Bind { activity, .. }
            | Effect::Suspend { activity, .. }
            | Effect::Resume { activity } => self.pass_activity(*activity),
            Effect::CancelTimer { timer } => pass_reference(self.timer, *timer),
            Effect::NewNull | Effect::Unbind { .. } => {}
        }
    }

    /// All that these effects create can have numbers.
    pub fn pass(self, effects: &[Effect])
        ensures { AllByRecursion (CanResolve (record { entity = self.entity; activity = self.activity; timer = self.timer })) effects.now }
    {
        'effects: for effect in effects {
            self.pass_effect(effect);
        }
    }
}

/// The same, for next numbers as they are drawn.
pub fn pass(entity: u64, activity: u64, timer: u64, effects: &[Effect])
    requires entity { entity ≤ 2 ^ 62 }
    requires activity { activity ≤ 2 ^ 62 }
    requires timer { timer ≤ 2 ^ 62 }
    ensures { AllByRecursion (CanResolve (record { entity = entity; activity = activity; timer = timer })) effects.now }
{
    let numbers = Numbers {
        entity,
        activity,
        timer,
    };
    numbers.pass(effects)
}
