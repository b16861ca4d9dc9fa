//! The parts of effects: each of these reads the part at the front of the bytes, and gives the bytes behind it.
ghost use Rattle.std.specs.Prelude.{◌≡◌, ◌≢◌, Err, IsOk, IsTrue};
ghost use Rattle.std.specs.Int.{w64};
ghost use Rattle.slee_value.specs.Reading.{Gives, pair, number_at, i8_at, i64_at, flag_at, option_at, text_at};
ghost use Rattle.slee_effect.specs.Reading.{keep_at, ref_at, val_at, fields_at};
ghost use Rattle.slee_effect.specs.Memory.{passes_behind, has_text, has_named};

use crate::rows::read_fields;
use crate::{FiredFields, Ref, Val, tag};
use slee_value::{
    Keep, PartFault, Text, ValueBad, read_flag, read_i8, read_i64, read_part, read_text, read_u32,
    read_u64,
};
use std::alloc::Global;

pub(crate) fn read_named(alloc: Global, bytes: &[u8]) -> Result<((Ref, Text), &[u8]), PartFault>
    ensures part { Gives (λ x. (x.0, x.1.now)) result (pair ref_at text_at bytes.now) }
    ensures memory { result ≡ Err PartFault.NoMemory → IsTrue (has_named bytes.now) }
{
    let (one, rest) = read_ref(bytes)?;
    let (name, rest) = read_text(alloc, rest)?;
    Ok(((one, name), rest))
}

pub(crate) fn read_setting(
    alloc: Global,
    bytes: &[u8],
) -> Result<((Ref, (Text, Val)), &[u8]), PartFault>
    ensures part { Gives (λ x. (x.0, x.1.now)) result (pair ref_at (pair text_at val_at) bytes.now) }
    ensures memory { result ≡ Err PartFault.NoMemory → IsTrue (has_named bytes.now) }
{
    let (one, rest) = read_ref(bytes)?;
    let (name, rest) = read_text(alloc, rest)?;
    let (value, rest) = read_val(alloc, rest)?;
    Ok(((one, (name, value)), rest))
}

pub(crate) fn read_creation(
    alloc: Global,
    bytes: &[u8],
) -> Result<((Ref, (Text, i8)), &[u8]), PartFault>
    ensures part { Gives (λ x. (x.0, x.1.now)) result (pair ref_at (pair text_at i8_at) bytes.now) }
    ensures memory { result ≡ Err PartFault.NoMemory → IsTrue (has_named bytes.now) }
{
    let (one, rest) = read_ref(bytes)?;
    let (name, rest) = read_text(alloc, rest)?;
    let (priority, rest) = read_i8(rest)?;
    Ok(((one, (name, priority)), rest))
}

pub(crate) fn read_priority(bytes: &[u8]) -> Result<((Ref, i8), &[u8]), PartFault>
    ensures part { Gives (λ x. (x.0, x.1.now)) result (pair ref_at i8_at bytes.now) }
    ensures memory { result ≢ Err PartFault.NoMemory }
{
    let (one, rest) = read_ref(bytes)?;
    let (priority, rest) = read_i8(rest)?;
    Ok(((one, priority), rest))
}

pub(crate) fn read_two(bytes: &[u8]) -> Result<((Ref, Ref), &[u8]), PartFault>
    ensures part { Gives (λ x. (x.0, x.1.now)) result (pair ref_at ref_at bytes.now) }
    ensures memory { result ≢ Err PartFault.NoMemory }
{
    let (one, rest) = read_ref(bytes)?;
    let (other, rest) = read_ref(rest)?;
    Ok(((one, other), rest))
}

pub(crate) fn read_mask(
    alloc: Global,
    bytes: &[u8],
) -> Result<((Ref, (Ref, (Text, bool))), &[u8]), PartFault>
    ensures part { Gives (λ x. (x.0, x.1.now)) result (pair ref_at (pair ref_at (pair text_at flag_at)) bytes.now) }
    ensures memory { result ≡ Err PartFault.NoMemory → IsTrue (passes_behind has_named (ref_at bytes.now)) }
{
    let (one, rest) = read_ref(bytes)?;
    let (other, rest) = read_ref(rest)?;
    let (event, rest) = read_text(alloc, rest)?;
    let (on, rest) = read_flag(rest)?;
    Ok(((one, (other, (event, on))), rest))
}

pub(crate) fn read_fire(
    alloc: Global,
    bytes: &[u8],
) -> Result<((Ref, (Text, (Option<Text>, FiredFields))), &[u8]), PartFault>
    ensures part { Gives (λ x. (x.0, x.1.now)) result (pair ref_at (pair text_at (pair (option_at text_at) fields_at)) bytes.now) }
    ensures memory { result ≡ Err PartFault.NoMemory → IsTrue (has_named bytes.now) }
{
    let (one, rest) = read_ref(bytes)?;
    let (event, rest) = read_text(alloc, rest)?;
    let (service, rest) = read_option(alloc, rest)?;
    let (fields, rest) = read_fields(alloc, rest)?;
    Ok(((one, (event, (service, fields))), rest))
}

pub(crate) fn read_timer(
    bytes: &[u8],
) -> Result<((Ref, (u64, (u64, (u64, Keep)))), &[u8]), PartFault>
    ensures part { Gives (λ x. (x.0, x.1.now)) result (pair ref_at (pair (number_at w64) (pair (number_at w64) (pair (number_at w64) keep_at))) bytes.now) }
    ensures memory { result ≢ Err PartFault.NoMemory }
{
    let (one, rest) = read_ref(bytes)?;
    let (start, rest) = read_u64(rest)?;
    let (period, rest) = read_u64(rest)?;
    let (times, rest) = read_u64(rest)?;
    let (keep, rest) = read_keep(rest)?;
    Ok(((one, (start, (period, (times, keep)))), rest))
}

pub(crate) fn read_binding(alloc: Global, bytes: &[u8]) -> Result<((Text, Ref), &[u8]), PartFault>
    ensures part { Gives (λ x. (x.0, x.1.now)) result (pair text_at ref_at bytes.now) }
    ensures memory { result ≡ Err PartFault.NoMemory → IsTrue (has_text bytes.now) }
{
    let (name, rest) = read_text(alloc, bytes)?;
    let (one, rest) = read_ref(rest)?;
    Ok(((name, one), rest))
}

pub(crate) fn read_usage(
    alloc: Global,
    bytes: &[u8],
) -> Result<((Ref, (Text, i64)), &[u8]), PartFault>
    ensures part { Gives (λ x. (x.0, x.1.now)) result (pair ref_at (pair text_at i64_at) bytes.now) }
    ensures memory { result ≡ Err PartFault.NoMemory → IsTrue (has_named bytes.now) }
{
    let (one, rest) = read_ref(bytes)?;
    let (name, rest) = read_text(alloc, rest)?;
    let (amount, rest) = read_i64(rest)?;
    Ok(((one, (name, amount)), rest))
}

pub(crate) fn read_suspension(bytes: &[u8]) -> Result<((Ref, u64), &[u8]), PartFault>
    ensures part { Gives (λ x. (x.0, x.1.now)) result (pair ref_at (number_at w64) bytes.now) }
    ensures memory { result ≢ Err PartFault.NoMemory }
{
    let (one, rest) = read_ref(bytes)?;
    let (until, rest) = read_u64(rest)?;
    Ok(((one, until), rest))
}

pub(crate) fn read_ref(bytes: &[u8]) -> Result<(Ref, &[u8]), PartFault>
    ensures part { Gives (λ x. (x.0, x.1.now)) result (ref_at bytes.now) }
    ensures memory { result ≢ Err PartFault.NoMemory }
{
    match bytes {
        [] => Err(PartFault::Bad {
            left: 0,
            kind: ValueBad::Short,
        }),
        [tag::KNOWN, rest @ ..] => {
            let (number, rest) = read_u64(rest)?;
            Ok((Ref::Known(number), rest))
        }
        [tag::FRESH, rest @ ..] => {
            let (place, rest) = read_u32(rest)?;
            Ok((Ref::Fresh(place), rest))
        }
        [_, ..] => Err(PartFault::Bad {
            left: bytes.len(),
            kind: ValueBad::Tag,
        }),
    }
}

pub(crate) fn read_val(alloc: Global, bytes: &[u8]) -> Result<(Val, &[u8]), PartFault>
    ensures part { Gives (λ x. (x.0, x.1.now)) result (val_at bytes.now) }
    ensures memory { result ≡ Err PartFault.NoMemory → IsOk (val_at bytes.now) }
{
    match bytes {
        [] => Err(PartFault::Bad {
            left: 0,
            kind: ValueBad::Short,
        }),
        [tag::PLAIN, rest @ ..] => {
            let (value, rest) = read_part(alloc, rest)?;
            Ok((Val::Plain(value), rest))
        }
        [tag::NEW_ACTIVITY, rest @ ..] => {
            let (place, rest) = read_u32(rest)?;
            Ok((Val::NewActivity(place), rest))
        }
        [tag::NEW_TIMER, rest @ ..] => {
            let (place, rest) = read_u32(rest)?;
            Ok((Val::NewTimer(place), rest))
        }
        [_, ..] => Err(PartFault::Bad {
            left: bytes.len(),
            kind: ValueBad::Tag,
        }),
    }
}

pub(crate) fn read_option(alloc: Global, bytes: &[u8]) -> Result<(Option<Text>, &[u8]), PartFault>
    ensures part { Gives (λ x. (x.0, x.1.now)) result (option_at text_at bytes.now) }
    ensures memory { result ≡ Err PartFault.NoMemory → IsOk (option_at text_at bytes.now) }
{
    let (is_some, rest) = read_flag(bytes)?;
    if !is_some {
        return Ok((None, rest));
    }
    let (text, rest) = read_text(alloc, rest)?;
    Ok((Some(text), rest))
}

/// Reads what a timer keeps of the occurrences that were missed; Bad where no byte is left, or it tells none.
pub fn read_keep(bytes: &[u8]) -> Result<(Keep, &[u8]), PartFault>
    ensures part { Gives (λ x. (x.0, x.1.now)) result (keep_at bytes.now) }
    ensures memory { result ≢ Err PartFault.NoMemory }
{
    match bytes {
        [] => Err(PartFault::Bad {
            left: 0,
            kind: ValueBad::Short,
        }),
        [tag::KEEP_ALL, rest @ ..] => Ok((Keep::All, rest)),
        [tag::KEEP_LAST, rest @ ..] => Ok((Keep::Last, rest)),
        [tag::KEEP_NONE, rest @ ..] => Ok((Keep::NoneMissed, rest)),
        [_, ..] => Err(PartFault::Bad {
            left: bytes.len(),
            kind: ValueBad::Tag,
        }),
    }
}
