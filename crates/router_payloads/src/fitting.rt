//! That effects have bytes: a text of more bytes than 32 bits count finds no memory.
ghost use Rattle.std.specs.Prelude.{◌≡◌, ◌<◌, ◌^◌, length, OnOk};
ghost use Rattle.std.specs.List.{AllByRecursion};
ghost use Rattle.slee_value.specs.Bytes.{FitsOption, FitsText};
ghost use Rattle.slee_effect.specs.Bytes.{AreShort};
ghost use Rattle.slee_effect.specs.Fitting.{AreRisingFields, FitEffects, FitsEffect, FitsField, FitsRef, FitsVal};

use slee_effect::{Effect, FiredFields, Ref, Val};
use slee_value::{NoMemory, Text, Value};

/// That so many are counted in 32 bits.
fn check_count(count: usize) -> Result<(), NoMemory>
    ensures { OnOk result (count < 2 ^ 32) }
{
    if count >= 1 << 32 {
        return Err(NoMemory);
    }
    Ok(())
}

fn check_text(text: &Text) -> Result<(), NoMemory>
    ensures { OnOk result (FitsText text.now) }
{
    check_count(text.as_bytes().len())
}

fn check_option(text: &Option<Text>) -> Result<(), NoMemory>
    ensures { OnOk result (FitsOption FitsText text.now) }
{
    match text {
        Some(text) => check_text(text),
        None => Ok(()),
    }
}

fn pass_reference(reference: Ref)
    ensures { FitsRef reference }
{
    match reference {
        Ref::Known(_) => {}
        Ref::Fresh(_) => {}
    }
}

fn check_value(value: &Val) -> Result<(), NoMemory>
    ensures { OnOk result (FitsVal value.now) }
{
    match value {
        Val::Plain(Value::Text(text)) => check_text(text),
        Val::Plain(Value::Int(number)) => {
            let _number = *number;
            Ok(())
        }
        Val::Plain(Value::Bool(_)) => Ok(()),
        Val::Plain(Value::Activity(activity)) => {
            let _number = activity.0;
            Ok(())
        }
        Val::Plain(Value::Timer(timer)) => {
            let _number = timer.0;
            Ok(())
        }
        Val::NewActivity(place) => {
            let _place = *place;
            Ok(())
        }
        Val::NewTimer(place) => {
            let _place = *place;
            Ok(())
        }
    }
}

fn check_fields(fields: &[(Text, Val)]) -> Result<(), NoMemory>
    ensures { OnOk result (AllByRecursion FitsField fields.now) }
{
    'fields: for (name, value) in fields {
        check_text(name)?;
        check_value(value)?;
    }
    Ok(())
}

/// That the fields of an event that is fired have bytes.
fn check_fired(fields: &FiredFields) -> Result<(), NoMemory>
    ensures { OnOk result (AreRisingFields fields.now) }
{
    check_count(fields.len())?;
    check_fields(fields.as_slice())
}

/// That a text and a value have bytes.
fn check_pair(name: &Text, value: &Val) -> Result<(), NoMemory>
    ensures name { OnOk result (FitsText name.now) }
    ensures value { OnOk result (FitsVal value.now) }
{
    check_text(name)?;
    check_value(value)
}

/// That an effect on an entity has bytes.
fn check_effect(effect: &Effect) -> Result<(), NoMemory>
    ensures { OnOk result (FitsEffect effect.now) }
{
    match effect {
        Effect::SetField {
            entity,
            name,
            value,
        } => {
            pass_reference(*entity);
            check_pair(name, value)
        }
        Effect::SetAttr {
            activity,
            key,
            value,
        } => {
            pass_reference(*activity);
            check_pair(key, value)
        }
        Effect::Create {
            parent,
            relation,
            priority,
        } => {
            pass_reference(*parent);
            let _priority = *priority;
            check_text(relation)
        }
        Effect::Remove { entity } => {
            pass_reference(*entity);
            Ok(())
        }
        Effect::SetPriority { entity, priority } => {
            pass_reference(*entity);
            let _priority = *priority;
            Ok(())
        }
        Effect::Attach { entity, activity } | Effect::Detach { entity, activity } => {
            pass_reference(*entity);
            pass_reference(*activity);
            Ok(())
        }
        Effect::SetMask {
            entity,
            activity,
            event,
            ..
        } => {
            pass_reference(*entity);
            pass_reference(*activity);
            check_text(event)
        }
        Effect::Fire {
            activity,
            event,
            service,
            fields,
        } => {
            pass_reference(*activity);
            check_text(event)?;
            check_option(service)?;
            check_fired(fields)
        }
        Effect::NewNull => Ok(()),
        Effect::EndNull { activity } | Effect::Resume { activity } => {
            pass_reference(*activity);
            Ok(())
        }
        Effect::SetTimer {
            activity,
            start,
            period,
            times,
            ..
        } => {
            pass_reference(*activity);
            let _start = *start;
            let _period = *period;
            let _times = *times;
            Ok(())
        }
        Effect::CancelTimer { timer } => {
            pass_reference(*timer);
            Ok(())
        }
        Effect::Bind { name, activity } => {
            pass_reference(*activity);
            check_text(name)
        }
        Effect::Unbind { name } => check_text(name),
        Effect::Emit { entity, text } => {
            pass_reference(*entity);
            check_text(text)
        }
        Effect::Usage {
            entity,
            name,
            amount,
        } => {
            pass_reference(*entity);
            let _amount = *amount;
            check_text(name)
        }
        Effect::Suspend { activity, until } => {
            pass_reference(*activity);
            let _until = *until;
            Ok(())
        }
    }
}

/// That effects have bytes.
#[tactic(auto, using(crate::proofs::ShortLemmas::short_effects))]
pub fn check_effects(effects: &[Effect]) -> Result<(), NoMemory>
    ensures fit { OnOk result (FitEffects effects.now) }
    ensures short { OnOk result (AreShort effects.now) }
{
    check_count(effects.len())?;
    'effects: for effect in effects {
        check_effect(effect)?;
    }
    Ok(())
}
