//! Writing a list of effects.
ghost use Rattle.std.specs.Prelude.{◌≡◌, ◌++◌, ◌∷◌, OnOk, OnErr, IfOk};
ghost use Rattle.slee_value.specs.Bytes.{spelled_text, spelled_u64, spelled_option};
ghost use Rattle.slee_effect.specs.Bytes.{spelled_keep, spelled_ref, spelled_val, spelled_fields, spelled_effect, spelling_of_effects, IsShortText, IsShortOption, IsShortVal, AreShortFields, IsShortEffect, AreShort};

use crate::{Effect, Ref, Val, tag};
use slee_value::{
    Keep, NoMemory, Text, write_flag, write_i8, write_text, write_u32, write_u64, write_value,
};
use std::alloc::Global;

/// Adds the bytes of the list of effects at the end.
pub fn write_effects(effects: &[Effect], into: &mut Vec<u8>) -> Result<(), NoMemory>
    requires { AreShort effects.now }
    ensures ok { OnOk result (into.new.items ≡ into.old.items ++ spelling_of_effects effects.now) }
    ensures err { OnErr result (into.new.items ≡ into.old.items) }
{
    let alloc = *into.allocator();
    let bytes = bytes_of(alloc, effects)?;
    into.extend_from_slice(&bytes)?;
    Ok(())
}

fn bytes_of(alloc: Global, effects: &[Effect]) -> Result<Vec<u8>, NoMemory>
    requires { AreShort effects.now }
    ensures { IfOk result (λ v. v.items ≡ spelling_of_effects effects.now) }
{
    let mut bytes = Vec::new(alloc);
    write_u32(effects.len() as u32, &mut bytes)?;
    for effect in effects {
        put_effect(effect, &mut bytes)?;
    }
    Ok(bytes)
}

fn put_effect(effect: &Effect, into: &mut Vec<u8>) -> Result<(), NoMemory>
    requires { IsShortEffect effect.now }
    ensures { OnOk result (into.new.items ≡ into.old.items ++ spelled_effect effect.now) }
{
    match effect {
        Effect::SetField {
            entity,
            name,
            value,
        } => put_setting(tag::SET_FIELD, *entity, name, value, into),
        Effect::SetAttr {
            activity,
            key,
            value,
        } => put_setting(tag::SET_ATTR, *activity, key, value, into),
        Effect::Create {
            parent,
            relation,
            priority,
        } => {
            put_named(tag::CREATE, *parent, relation, into)?;
            write_i8(*priority, into)
        }
        Effect::Remove { entity } => put_one(tag::REMOVE, *entity, into),
        Effect::SetPriority { entity, priority } => {
            put_one(tag::SET_PRIORITY, *entity, into)?;
            write_i8(*priority, into)
        }
        Effect::Attach { entity, activity } => put_two(tag::ATTACH, *entity, *activity, into),
        Effect::Detach { entity, activity } => put_two(tag::DETACH, *entity, *activity, into),
        Effect::SetMask {
            entity,
            activity,
            event,
            on,
        } => {
            put_two(tag::SET_MASK, *entity, *activity, into)?;
            write_text(event, into)?;
            write_flag(*on, into)
        }
        Effect::Fire {
            activity,
            event,
            service,
            fields,
        } => {
            put_named(tag::FIRE, *activity, event, into)?;
            put_option(service, into)?;
            put_fields(fields.as_slice(), into)
        }
        Effect::NewNull => Ok(into.push(tag::NEW_NULL)?),
        Effect::EndNull { activity } => put_one(tag::END_NULL, *activity, into),
        Effect::SetTimer {
            activity,
            start,
            period,
            times,
            keep,
        } => {
            put_one(tag::SET_TIMER, *activity, into)?;
            put_moments(*start, *period, *times, into)?;
            write_keep(*keep, into)
        }
        Effect::CancelTimer { timer } => put_one(tag::CANCEL_TIMER, *timer, into),
        Effect::Bind { name, activity } => {
            into.push(tag::BIND)?;
            write_text(name, into)?;
            put_ref(*activity, into)
        }
        Effect::Unbind { name } => {
            into.push(tag::UNBIND)?;
            write_text(name, into)
        }
        Effect::Emit { entity, text } => put_named(tag::EMIT, *entity, text, into),
        Effect::Usage {
            entity,
            name,
            amount,
        } => { put_counted(tag::USAGE, *entity, name, amount.cast_unsigned(), into) }
        Effect::Suspend { activity, until } => {
            put_one(tag::SUSPEND, *activity, into)?;
            write_u64(*until, into)
        }
        Effect::Resume { activity } => put_one(tag::RESUME, *activity, into),
    }
}

fn put_one(tag: u8, one: Ref, into: &mut Vec<u8>) -> Result<(), NoMemory>
    ensures { OnOk result (into.new.items ≡ into.old.items ++ (tag ∷ spelled_ref one)) }
{
    into.push(tag)?;
    put_ref(one, into)
}

fn put_two(tag: u8, one: Ref, other: Ref, into: &mut Vec<u8>) -> Result<(), NoMemory>
    ensures { OnOk result (into.new.items ≡ into.old.items ++ (tag ∷ (spelled_ref one ++ spelled_ref other))) }
{
    put_one(tag, one, into)?;
    put_ref(other, into)
}

fn put_named(tag: u8, one: Ref, name: &Text, into: &mut Vec<u8>) -> Result<(), NoMemory>
    requires { IsShortText name.now }
    ensures { OnOk result (into.new.items ≡ into.old.items ++ (tag ∷ (spelled_ref one ++ spelled_text name.now))) }
{
    put_one(tag, one, into)?;
    write_text(name, into)
}

fn put_setting(
    tag: u8,
    one: Ref,
    name: &Text,
    value: &Val,
    into: &mut Vec<u8>,
) -> Result<(), NoMemory>
    requires name { IsShortText name.now }
    requires value { IsShortVal value.now }
    ensures { OnOk result (into.new.items ≡ into.old.items ++ (tag ∷ (spelled_ref one ++ (spelled_text name.now ++ spelled_val value.now)))) }
{
    put_named(tag, one, name, into)?;
    put_val(value, into)
}

fn put_counted(
    tag: u8,
    one: Ref,
    name: &Text,
    number: u64,
    into: &mut Vec<u8>,
) -> Result<(), NoMemory>
    requires { IsShortText name.now }
    ensures { OnOk result (into.new.items ≡ into.old.items ++ (tag ∷ (spelled_ref one ++ (spelled_text name.now ++ spelled_u64 number)))) }
{
    put_named(tag, one, name, into)?;
    write_u64(number, into)
}

fn put_ref(one: Ref, into: &mut Vec<u8>) -> Result<(), NoMemory>
    ensures { OnOk result (into.new.items ≡ into.old.items ++ spelled_ref one) }
{
    match one {
        Ref::Known(number) => {
            into.push(tag::KNOWN)?;
            write_u64(number, into)
        }
        Ref::Fresh(place) => {
            into.push(tag::FRESH)?;
            write_u32(place, into)
        }
    }
}

fn put_val(value: &Val, into: &mut Vec<u8>) -> Result<(), NoMemory>
    requires { IsShortVal value.now }
    ensures { OnOk result (into.new.items ≡ into.old.items ++ spelled_val value.now) }
{
    match value {
        Val::Plain(value) => {
            into.push(tag::PLAIN)?;
            write_value(value, into)
        }
        Val::NewActivity(place) => {
            into.push(tag::NEW_ACTIVITY)?;
            write_u32(*place, into)
        }
        Val::NewTimer(place) => {
            into.push(tag::NEW_TIMER)?;
            write_u32(*place, into)
        }
    }
}

fn put_option(text: &Option<Text>, into: &mut Vec<u8>) -> Result<(), NoMemory>
    requires { IsShortOption text.now }
    ensures { OnOk result (into.new.items ≡ into.old.items ++ spelled_option spelled_text text.now) }
{
    match text {
        None => write_flag(false, into),
        Some(text) => {
            write_flag(true, into)?;
            write_text(text, into)
        }
    }
}

fn put_fields(fields: &[(Text, Val)], into: &mut Vec<u8>) -> Result<(), NoMemory>
    requires { AreShortFields fields.now }
    ensures { OnOk result (into.new.items ≡ into.old.items ++ spelled_fields fields.now) }
{
    write_u32(fields.len() as u32, into)?;
    for (name, value) in fields {
        write_text(name, into)?;
        put_val(value, into)?;
    }
    Ok(())
}

fn put_moments(start: u64, period: u64, times: u64, into: &mut Vec<u8>) -> Result<(), NoMemory>
    ensures { OnOk result (into.new.items ≡ into.old.items ++ (spelled_u64 start ++ (spelled_u64 period ++ spelled_u64 times))) }
{
    write_u64(start, into)?;
    write_u64(period, into)?;
    write_u64(times, into)
}

/// Adds the byte of what a timer keeps of the occurrences that were missed.
pub fn write_keep(keep: Keep, into: &mut Vec<u8>) -> Result<(), NoMemory>
    ensures { OnOk result (into.new.items ≡ into.old.items ++ spelled_keep keep) }
{
    let byte = match keep {
        Keep::All => tag::KEEP_ALL,
        Keep::Last => tag::KEEP_LAST,
        Keep::NoneMissed => tag::KEEP_NONE,
    };
    Ok(into.push(byte)?)
}
