//! The effects of a handler.
ghost use Rattle.std.specs.Prelude.{◌≡◌, IfOk};

use crate::making::{create, fire, set_attr, set_field, set_mask, set_timer, usage};
use crate::{FiredFields, Ref, Val};
use slee_value::{Keep, NoMemory, Text};
use std::alloc::Global;

/// What a handler does to the state. Effects are done in the order of their list.
#[derive(Debug, Drop)]
pub enum Effect {
    /// A field of an entity gets a value.
    SetField {
        entity: Ref,
        name: Text,
        value: Val,
    },
    /// An attribute of an activity gets a value.
    SetAttr {
        activity: Ref,
        key: Text,
        value: Val,
    },
    /// An entity gets a new child.
    Create {
        parent: Ref,
        relation: Text,
        priority: i8,
    },
    /// An entity and all below it are removed.
    Remove {
        entity: Ref,
    },
    SetPriority {
        entity: Ref,
        priority: i8,
    },
    Attach {
        entity: Ref,
        activity: Ref,
    },
    Detach {
        entity: Ref,
        activity: Ref,
    },
    /// An attached entity masks an event there, or no longer.
    SetMask {
        entity: Ref,
        activity: Ref,
        event: Text,
        on: bool,
    },
    /// An event is queued, for all services or for the one that is named.
    Fire {
        activity: Ref,
        event: Text,
        service: Option<Text>,
        fields: FiredFields,
    },
    /// A null activity is started.
    NewNull,
    /// A null activity is ended.
    EndNull {
        activity: Ref,
    },
    /// A timer is set. Its period is 0 where it occurs once, and then `times` is 1; else `times` 0 is for ever.
    SetTimer {
        activity: Ref,
        start: u64,
        period: u64,
        times: u64,
        keep: Keep,
    },
    CancelTimer {
        timer: Ref,
    },
    /// An activity gets a name.
    Bind {
        name: Text,
        activity: Ref,
    },
    Unbind {
        name: Text,
    },
    /// An entity says a text.
    Emit {
        entity: Ref,
        text: Text,
    },
    /// An amount is added to a usage count of the name `BLOCK.NAME`.
    Usage {
        entity: Ref,
        name: Text,
        amount: i64,
    },
    /// The delivery of an activity's first event waits until a moment, in milliseconds.
    Suspend {
        activity: Ref,
        until: u64,
    },
    /// The delivery of an activity's first event goes on.
    Resume {
        activity: Ref,
    },
}

impl Effect {
    /// A copy.
    pub fn copy(&self, alloc: Global) -> Result<Self, NoMemory>
        ensures { IfOk result (λ effect. effect ≡ self.now) }
    {
        match self {
            Effect::SetField {
                entity,
                name,
                value,
            } => Ok(set_field(*entity, name.copy(alloc)?, value.copy(alloc)?)),
            Effect::SetAttr {
                activity,
                key,
                value,
            } => Ok(set_attr(*activity, key.copy(alloc)?, value.copy(alloc)?)),
            Effect::Create {
                parent,
                relation,
                priority,
            } => Ok(create(*parent, relation.copy(alloc)?, *priority)),
            &Effect::Remove { entity } => Ok(Effect::Remove { entity }),
            &Effect::SetPriority { entity, priority } => Ok(Effect::SetPriority {
                entity,
                priority,
            }),
            &Effect::Attach { entity, activity } => Ok(Effect::Attach { entity, activity }),
            &Effect::Detach { entity, activity } => Ok(Effect::Detach { entity, activity }),
            Effect::SetMask {
                entity,
                activity,
                event,
                on,
            } => Ok(set_mask(*entity, *activity, event.copy(alloc)?, *on)),
            Effect::Fire {
                activity,
                event,
                service,
                fields,
            } => {
                let event = event.copy(alloc)?;
                let service = copied_text(alloc, service)?;
                Ok(fire(*activity, event, service, fields.copy(alloc)?))
            }
            Effect::NewNull => Ok(Effect::NewNull),
            &Effect::EndNull { activity } => Ok(Effect::EndNull { activity }),
            &Effect::SetTimer {
                activity,
                start,
                period,
                times,
                keep,
            } => Ok(set_timer(activity, start, period, times, keep)),
            &Effect::CancelTimer { timer } => Ok(Effect::CancelTimer { timer }),
            Effect::Bind { name, activity } => Ok(Effect::Bind {
                name: name.copy(alloc)?,
                activity: *activity,
            }),
            Effect::Unbind { name } => Ok(Effect::Unbind {
                name: name.copy(alloc)?,
            }),
            Effect::Emit { entity, text } => Ok(Effect::Emit {
                entity: *entity,
                text: text.copy(alloc)?,
            }),
            Effect::Usage {
                entity,
                name,
                amount,
            } => Ok(usage(*entity, name.copy(alloc)?, *amount)),
            &Effect::Suspend { activity, until } => Ok(Effect::Suspend { activity, until }),
            &Effect::Resume { activity } => Ok(Effect::Resume { activity }),
        }
    }
}

fn copied_text(alloc: Global, text: &Option<Text>) -> Result<Option<Text>, NoMemory>
    ensures { IfOk result (λ t. t ≡ text.now) }
{
    match text {
        None => Ok(None),
        Some(text) => Ok(Some(text.copy(alloc)?)),
    }
}
