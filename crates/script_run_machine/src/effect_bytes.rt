//! How many bytes effects have in the journal.
ghost use Rattle.std.specs.Prelude.{◌≡◌, ◌≤◌, ◌+◌, ◌*◌, length, min};
ghost use Rattle.slee_value.specs.Bytes.{spelled_text, spelled_option};
ghost use Rattle.slee_effect.specs.Bytes.{spelled_ref, spelled_val, spelled_fields, spelled_effect};
ghost use Rattle.script_run_machine.specs.declared.effect_bytes.TheConstants.{LEN_CAP, TAG_LEN, LONG_LEN};

use slee_effect::{Effect, Ref, Val};
use slee_value::{Text, Value};

/// A byte for which one of several it is.
const TAG_LEN: u32 = 1;
/// A truth value, or a number of 8 bits.
const SHORT_LEN: u32 = 1;
/// A number of 32 bits, as the count of a text or a list.
const COUNT_LEN: u32 = 4;
/// A number of 64 bits.
const LONG_LEN: u32 = 8;

/// Above this number of bytes no more are counted. No run may have as many.
const LEN_CAP: u32 = 65_536;

/// How many bytes an effect has. Above the cap it may be another number above it.
#[tactic(auto, using(crate::proofs::EffectLemmas::length_both))]
pub(crate) fn len_of_effect(effect: &Effect) -> u32
    ensures len { min result LEN_CAP ≡ min (length (spelled_effect effect.now)) LEN_CAP }
    ensures most { result ≤ 4 * LEN_CAP }
{
    match effect {
        Effect::SetField {
            entity,
            name,
            value,
        } => TAG_LEN + len_of_ref(*entity) + len_of_text(name) + len_of_val(value),
        Effect::SetAttr {
            activity,
            key,
            value,
        } => TAG_LEN + len_of_ref(*activity) + len_of_text(key) + len_of_val(value),
        Effect::Create {
            parent,
            relation,
            priority: _,
        } => TAG_LEN + len_of_ref(*parent) + len_of_text(relation) + SHORT_LEN,
        Effect::Remove { entity } => TAG_LEN + len_of_ref(*entity),
        Effect::SetPriority {
            entity,
            priority: _,
        } => TAG_LEN + len_of_ref(*entity) + SHORT_LEN,
        Effect::Attach { entity, activity } | Effect::Detach { entity, activity } => {
            TAG_LEN + len_of_ref(*entity) + len_of_ref(*activity)
        }
        Effect::SetMask {
            entity,
            activity,
            event,
            on: _,
        } => {
            TAG_LEN + len_of_ref(*entity) + len_of_ref(*activity) + len_of_text(event) + SHORT_LEN
        }
        Effect::Fire {
            activity,
            event,
            service,
            fields,
        } => {
            TAG_LEN
                + len_of_ref(*activity)
                + len_of_text(event)
                + len_of_option(service)
                + len_of_fields(fields.as_slice())
        }
        Effect::NewNull => TAG_LEN,
        Effect::EndNull { activity } | Effect::Resume { activity } => {
            TAG_LEN + len_of_ref(*activity)
        }
        Effect::SetTimer {
            activity,
            start: _,
            period: _,
            times: _,
            keep: _,
        } => TAG_LEN + len_of_ref(*activity) + 3 * LONG_LEN + SHORT_LEN,
        Effect::CancelTimer { timer } => TAG_LEN + len_of_ref(*timer),
        Effect::Bind { name, activity } => TAG_LEN + len_of_text(name) + len_of_ref(*activity),
        Effect::Unbind { name } => TAG_LEN + len_of_text(name),
        Effect::Emit { entity, text } => TAG_LEN + len_of_ref(*entity) + len_of_text(text),
        Effect::Usage {
            entity,
            name,
            amount: _,
        } => TAG_LEN + len_of_ref(*entity) + len_of_text(name) + LONG_LEN,
        Effect::Suspend { activity, until: _ } => TAG_LEN + len_of_ref(*activity) + LONG_LEN,
    }
}

fn len_of_ref(one: Ref) -> u32
    ensures len { result ≡ length (spelled_ref one) }
    ensures most { result ≤ TAG_LEN + LONG_LEN }
{
    match one {
        Ref::Known(_) => TAG_LEN + LONG_LEN,
        Ref::Fresh(_) => TAG_LEN + COUNT_LEN,
    }
}

#[tactic(auto, using(crate::proofs::EffectLemmas::length_both))]
fn len_of_text(text: &Text) -> u32
    ensures { result ≡ min (length (spelled_text text.now)) LEN_CAP }
{
    if text.len() >= LEN_CAP as usize {
        return LEN_CAP;
    }
    (COUNT_LEN + text.len() as u32).min(LEN_CAP)
}

#[tactic(auto, using(crate::proofs::EffectLemmas::length_both))]
fn len_of_option(text: &Option<Text>) -> u32
    ensures { result ≡ min (length (spelled_option spelled_text text.now)) LEN_CAP }
{
    match text {
        None => SHORT_LEN,
        Some(text) => (SHORT_LEN + len_of_text(text)).min(LEN_CAP),
    }
}

#[tactic(auto, using(crate::proofs::EffectLemmas::length_both))]
fn len_of_val(value: &Val) -> u32
    ensures { result ≡ min (length (spelled_val value.now)) LEN_CAP }
{
    match value {
        Val::Plain(Value::Text(text)) => { (TAG_LEN + TAG_LEN + len_of_text(text)).min(LEN_CAP) }
        Val::Plain(Value::Bool(_)) => TAG_LEN + TAG_LEN + SHORT_LEN,
        Val::Plain(Value::Int(_) | Value::Activity(_) | Value::Timer(_)) => {
            TAG_LEN + TAG_LEN + LONG_LEN
        }
        Val::NewActivity(_) | Val::NewTimer(_) => TAG_LEN + COUNT_LEN,
    }
}

fn len_of_fields(fields: &[(Text, Val)]) -> u32
    ensures { result ≡ min (length (spelled_fields fields.now)) LEN_CAP }
{
    let mut len = COUNT_LEN;
    for (name, value) in fields {
        len = (len + len_of_text(name) + len_of_val(value)).min(LEN_CAP);
    }
    len
}
