//! Reading a list of effects.
ghost use Rattle.std.specs.Prelude.{◌≡◌, List, length, Err, IsTrue, IfOk, IfErr};
ghost use Rattle.slee_value.specs.Reading.{Gives, row_of};
ghost use Rattle.slee_value.specs.declared.fault.PartFault.TheVariants.{Bad};
ghost use Rattle.slee_value.specs.declared.fault.ValueBad.TheVariants.{Tag};
ghost use Rattle.slee_effect.specs.declared.effect.Effect.{Effect as EffectModel};
ghost use Rattle.slee_effect.specs.Bytes.{spelling_of_effects};
ghost use Rattle.slee_effect.specs.Fitting.{FitEffects};
ghost use Rattle.slee_effect.specs.Lists.{IsRead, StandsRight, Answers};
ghost use Rattle.slee_effect.specs.Reading.{effect_at, effects_by_tag, items_at, list_of};
ghost use Rattle.slee_effect.specs.Memory.{first_texts, passes, has_first_text, items_take_memory, takes_memory};

use crate::making::{create, fire, set_attr, set_field, set_mask, set_timer, usage};
use crate::parts::{
    read_binding, read_creation, read_fire, read_mask, read_named, read_priority, read_ref,
    read_setting, read_suspension, read_timer, read_two, read_usage,
};
use crate::{Effect, EffectFault, Effects, tag};
use slee_value::{PartFault, ValueBad, read_text, read_u32};
use std::alloc::Global;

/// The list of effects that the bytes are, all of them.
pub fn read_effects(alloc: Global, bytes: &[u8]) -> Result<Effects, EffectFault>
    // What is read is spelled so, each byte of it.
    ensures found { IfOk result (λ e. FitEffects e × (bytes.now ≡ spelling_of_effects e)) }
    // What is spelled so is read, unless memory runs out.
    ensures only { (es : List EffectModel) → FitEffects es → bytes.now ≡ spelling_of_effects es → IsRead es result }
    // A fault stands at the first byte that can't go on.
    ensures place { IfErr result (λ e. StandsRight bytes.now e) }
    // Which list or fault it is.
    ensures exact { Answers bytes.now result }
    // Memory can run out only where an effect of the list, or its first text, is read.
    ensures memory { result ≡ Err EffectFault.NoMemory → IsTrue (takes_memory bytes.now) }
{
    match list(alloc, bytes) {
        Ok(effects) => Ok(Effects::from_vec(effects)),
        Err(PartFault::NoMemory) => Err(EffectFault::NoMemory),
        Err(PartFault::Bad { left, .. }) => Err(EffectFault::Bad {
            at: bytes.len() - left,
        }),
    }
}

fn list(alloc: Global, bytes: &[u8]) -> Result<Vec<Effect>, PartFault>
    ensures list { Gives (λ v. v.items) result (list_of bytes.now) }
    ensures memory { result ≡ Err PartFault.NoMemory → IsTrue (takes_memory bytes.now) }
{
    let (count, rest) = read_u32(bytes)?;
    let (effects, rest) = read_items(alloc, count, rest)?;
    if !rest.is_empty() {
        return Err(stray(rest));
    }
    Ok(effects)
}

#[tactic(auto, using(crate::proofs::MemoryLemmas::text_memory))]
fn read_items(alloc: Global, count: u32, bytes: &[u8]) -> Result<(Vec<Effect>, &[u8]), PartFault>
    ensures items { Gives (λ x. (x.0.items, x.1.now)) result (items_at count bytes.now) }
    ensures memory { result ≡ Err PartFault.NoMemory → IsTrue (items_take_memory count bytes.now) }
{
    let mut effects = Vec::new(alloc);
    let mut rest = bytes;
    'items: for _ in 0..count {
        let (effect, after) = read_effect(alloc, rest)?;
        effects.push(effect)?;
        rest = after;
    }
    Ok((effects, rest))
}

fn stray(bytes: &[u8]) -> PartFault
    ensures { result ≡ Bad (length bytes.now) Tag }
{
    PartFault::Bad {
        left: bytes.len(),
        kind: ValueBad::Tag,
    }
}

fn read_effect(alloc: Global, bytes: &[u8]) -> Result<(Effect, &[u8]), PartFault>
    ensures part { Gives (λ x. (x.0, x.1.now)) result (effect_at bytes.now) }
    ensures memory { result ≡ Err PartFault.NoMemory → IsTrue (has_first_text bytes.now) }
{
    match bytes {
        [] => Err(PartFault::Bad {
            left: 0,
            kind: ValueBad::Short,
        }),
        [tag, rest @ ..] => read_body(alloc, *tag, rest),
    }
}

fn read_body(alloc: Global, tag: u8, rest: &[u8]) -> Result<(Effect, &[u8]), PartFault>
    ensures part { Gives (λ x. (x.0, x.1.now)) result (row_of effects_by_tag tag rest.now) }
    ensures memory { result ≡ Err PartFault.NoMemory → IsTrue (passes first_texts tag rest.now) }
{
    match tag {
        tag::SET_FIELD => {
            let ((entity, (name, value)), rest) = read_setting(alloc, rest)?;
            Ok((set_field(entity, name, value), rest))
        }
        tag::SET_ATTR => {
            let ((activity, (key, value)), rest) = read_setting(alloc, rest)?;
            Ok((set_attr(activity, key, value), rest))
        }
        tag::CREATE => {
            let ((parent, (relation, priority)), rest) = read_creation(alloc, rest)?;
            Ok((create(parent, relation, priority), rest))
        }
        tag::REMOVE => {
            let (entity, rest) = read_ref(rest)?;
            Ok((Effect::Remove { entity }, rest))
        }
        tag::SET_PRIORITY => {
            let ((entity, priority), rest) = read_priority(rest)?;
            Ok((Effect::SetPriority { entity, priority }, rest))
        }
        tag::ATTACH => {
            let ((entity, activity), rest) = read_two(rest)?;
            Ok((Effect::Attach { entity, activity }, rest))
        }
        tag::DETACH => {
            let ((entity, activity), rest) = read_two(rest)?;
            Ok((Effect::Detach { entity, activity }, rest))
        }
        tag::SET_MASK => {
            let ((entity, (activity, (event, on))), rest) = read_mask(alloc, rest)?;
            Ok((set_mask(entity, activity, event, on), rest))
        }
        tag::FIRE => {
            let ((activity, (event, (service, fields))), rest) = read_fire(alloc, rest)?;
            Ok((fire(activity, event, service, fields), rest))
        }
        tag::NEW_NULL => Ok((Effect::NewNull, rest)),
        tag::END_NULL => {
            let (activity, rest) = read_ref(rest)?;
            Ok((Effect::EndNull { activity }, rest))
        }
        tag::SET_TIMER => {
            let ((activity, (start, (period, (times, keep)))), rest) = read_timer(rest)?;
            Ok((set_timer(activity, start, period, times, keep), rest))
        }
        tag::CANCEL_TIMER => {
            let (timer, rest) = read_ref(rest)?;
            Ok((Effect::CancelTimer { timer }, rest))
        }
        tag::BIND => {
            let ((name, activity), rest) = read_binding(alloc, rest)?;
            Ok((Effect::Bind { name, activity }, rest))
        }
        tag::UNBIND => {
            let (name, rest) = read_text(alloc, rest)?;
            Ok((Effect::Unbind { name }, rest))
        }
        tag::EMIT => {
            let ((entity, text), rest) = read_named(alloc, rest)?;
            Ok((Effect::Emit { entity, text }, rest))
        }
        tag::USAGE => {
            let ((entity, (name, amount)), rest) = read_usage(alloc, rest)?;
            Ok((usage(entity, name, amount), rest))
        }
        tag::SUSPEND => {
            let ((activity, until), rest) = read_suspension(rest)?;
            Ok((Effect::Suspend { activity, until }, rest))
        }
        tag::RESUME => {
            let (activity, rest) = read_ref(rest)?;
            Ok((Effect::Resume { activity }, rest))
        }
        _ => Err(PartFault::Bad {
            left: rest.len() + 1,
            kind: ValueBad::Tag,
        }),
    }
}
