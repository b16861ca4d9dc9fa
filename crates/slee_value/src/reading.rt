//! Reading: each of these reads the part at the front of the bytes, and gives the bytes behind it.
ghost use Rattle.std.specs.Prelude.{◌≡◌, ◌≢◌, ℕ, ◌+◌, ◌<◌, ◌≤◌, List, length, take, drop, OnOk, IfOk, IfErr, IfSome, ◌++◌, slice_get, None, Some, Err, IsOk};
ghost use Rattle.std.specs.Int.{w32, w64};
ghost use Rattle.std.specs.Str.Lossy.{utf8_valid_len, utf8_error_len};
ghost use Rattle.slee_value.specs.declared.value.Value.{Value as ValueModel};
ghost use Rattle.slee_value.specs.Bytes.{spelling_of_value, Fits};
ghost use Rattle.slee_value.specs.Values.{IsFront, IsRead, StandsRight, Answers};
ghost use Rattle.slee_value.specs.Reading.{Gives, Fails, number_at, byte_at, i8_at, i64_at, flag_at, bytes_at, text_at, text_fault, fault_behind, unless_fault, good_len, char_len, value_at};

use crate::tag::{ACTIVITY_TAG, FLAG_TAG, INT_TAG, TEXT_TAG, TIMER_TAG};
use crate::{ActivityId, PartFault, Text, TimerId, Value, ValueBad, ValueFault};
use std::alloc::Global;
use std::str;

/// How many bytes a count takes: a number of 32 bits.
pub const COUNT_LEN: usize = 4;

/// The number of 32 bits at the front, and the bytes behind it.
pub fn read_u32(bytes: &[u8]) -> Result<(u32, &[u8]), PartFault>
    ensures part { Gives (λ x. (x.0, x.1.now)) result (number_at w32 bytes.now) }
    ensures memory { result ≢ Err PartFault.NoMemory }
{
    let Some((number, rest)) = bytes.split_first_chunk::<COUNT_LEN>() else {
        return Err(PartFault::Bad {
            left: 0,
            kind: ValueBad::Short,
        });
    };
    Ok((u32::from_le_bytes(*number), rest))
}

/// The number of 64 bits at the front, and the bytes behind it.
pub fn read_u64(bytes: &[u8]) -> Result<(u64, &[u8]), PartFault>
    ensures part { Gives (λ x. (x.0, x.1.now)) result (number_at w64 bytes.now) }
    ensures memory { result ≢ Err PartFault.NoMemory }
{
    let Some((number, rest)) = bytes.split_first_chunk::<8>() else {
        return Err(PartFault::Bad {
            left: 0,
            kind: ValueBad::Short,
        });
    };
    Ok((u64::from_le_bytes(*number), rest))
}

/// The flag at the front, and the bytes behind it.
pub fn read_flag(bytes: &[u8]) -> Result<(bool, &[u8]), PartFault>
    ensures part { Gives (λ x. (x.0, x.1.now)) result (flag_at bytes.now) }
    ensures memory { result ≢ Err PartFault.NoMemory }
{
    match bytes {
        [] => Err(PartFault::Bad {
            left: 0,
            kind: ValueBad::Short,
        }),
        [0, rest @ ..] => Ok((false, rest)),
        [1, rest @ ..] => Ok((true, rest)),
        [_, ..] => Err(PartFault::Bad {
            left: bytes.len(),
            kind: ValueBad::Flag,
        }),
    }
}

/// The byte at the front, and the bytes behind it.
pub fn read_u8(bytes: &[u8]) -> Result<(u8, &[u8]), PartFault>
    ensures part { Gives (λ x. (x.0, x.1.now)) result (byte_at bytes.now) }
    ensures memory { result ≢ Err PartFault.NoMemory }
{
    let Some((byte, rest)) = bytes.split_first() else {
        return Err(PartFault::Bad {
            left: 0,
            kind: ValueBad::Short,
        });
    };
    Ok((*byte, rest))
}

/// The byte with a sign at the front, and the bytes behind it.
pub fn read_i8(bytes: &[u8]) -> Result<(i8, &[u8]), PartFault>
    ensures part { Gives (λ x. (x.0, x.1.now)) result (i8_at bytes.now) }
    ensures memory { result ≢ Err PartFault.NoMemory }
{
    let (byte, rest) = read_u8(bytes)?;
    Ok((byte.cast_signed(), rest))
}

/// The number of 64 bits with a sign at the front, and the bytes behind it.
pub fn read_i64(bytes: &[u8]) -> Result<(i64, &[u8]), PartFault>
    ensures part { Gives (λ x. (x.0, x.1.now)) result (i64_at bytes.now) }
    ensures memory { result ≢ Err PartFault.NoMemory }
{
    let (number, rest) = read_u64(bytes)?;
    Ok((number.cast_signed(), rest))
}

/// So many bytes as the number of 32 bits at the front counts, and the bytes behind them.
pub fn read_bytes(bytes: &[u8]) -> Result<(&[u8], &[u8]), PartFault>
    ensures part { Gives (λ x. (x.0.now, x.1.now)) result (bytes_at bytes.now) }
    ensures size { IfOk result (λ x. length x.0.now + length x.1.now + COUNT_LEN ≡ length bytes.now) }
    ensures memory { result ≢ Err PartFault.NoMemory }
{
    let (len, rest) = read_u32(bytes)?;
    let len = len as usize;
    if rest.len() < len {
        return Err(PartFault::Bad {
            left: 0,
            kind: ValueBad::Short,
        });
    }
    Ok(rest.split_at(len))
}

/// The text at the front, its length first, and the bytes behind it. It is lent and takes no memory.
#[tactic(auto, unfolding(crate::specs::Reading::text_at))]
pub fn read_str(bytes: &[u8]) -> Result<(&str, &[u8]), PartFault>
    ensures part { Gives (λ x. (x.0.now, x.1.now)) result (text_at bytes.now) }
    ensures memory { result ≢ Err PartFault.NoMemory }
{
    let (len, rest) = read_u32(bytes)?;
    let len = len as usize;
    let text = str_of(len, rest)?;
    Ok((text, &rest[len..]))
}

/// The same, copied.
pub fn read_text(alloc: Global, bytes: &[u8]) -> Result<(Text, &[u8]), PartFault>
    ensures part { Gives (λ x. (x.0, x.1.now)) result (text_at bytes.now) }
    // Memory can run out only where a text stands.
    ensures memory { result ≡ Err PartFault.NoMemory → IsOk (text_at bytes.now) }
{
    let (text, rest) = read_str(bytes)?;
    Ok((Text::from_str(alloc, text)?, rest))
}

fn str_of(len: usize, bytes: &[u8]) -> Result<&str, PartFault>
    ensures text { Gives (λ t. t.now) result (unless_fault (text_fault len bytes.now) (take len bytes.now)) }
    ensures bound { OnOk result (len ≤ length bytes.now) }
    ensures memory { result ≢ Err PartFault.NoMemory }
{
    let front = front_of(bytes, len);
    match str::from_utf8(front) {
        Err(error) => {
            let good = good_len_of(len, front, error.valid_up_to(), error.error_len());
            Err(fault_at(good, bytes.len()))
        }
        Ok(text) => {
            if bytes.len() < len {
                Err(PartFault::Bad {
                    left: 0,
                    kind: ValueBad::Short,
                })
            } else {
                Ok(text)
            }
        }
    }
}

fn front_of(bytes: &[u8], len: usize) -> &[u8]
    ensures { result.now ≡ take len bytes.now }
{
    if bytes.len() < len {
        bytes
    } else {
        &bytes[..len]
    }
}

fn fault_at(good: usize, len: usize) -> PartFault
    requires { good ≤ len }
    ensures fault { Fails {Y = List ℕ} result (Err (fault_behind good len)) }
    ensures memory { result ≢ PartFault.NoMemory }
{
    if good == len {
        PartFault::Bad {
            left: 0,
            kind: ValueBad::Short,
        }
    } else {
        PartFault::Bad {
            left: len - good,
            kind: ValueBad::Utf8,
        }
    }
}

fn good_len_of(len: usize, front: &[u8], whole: usize, invalid: Option<usize>) -> usize
    requires whole { whole ≡ utf8_valid_len front.now }
    requires within { whole < length front.now }
    requires invalid { invalid ≡ utf8_error_len (drop whole front.now) }
    requires bound { IfSome invalid (λ bad. whole + bad ≤ length front.now) }
    ensures value { result ≡ good_len len front.now }
    ensures bound { result ≤ length front.now }
{
    let needs = char_len_of(front[whole]);
    if needs == 0 || len < whole + needs {
        return whole;
    }
    match invalid {
        None => front.len(),
        Some(bad) => whole + bad,
    }
}

fn char_len_of(first: u8) -> usize
    ensures value { result ≡ char_len first }
    ensures few { result ≤ 4 }
{
    match first {
        0..=0x7F => 1,
        0xC2..=0xDF => 2,
        0xE0..=0xEF => 3,
        0xF0..=0xF4 => 4,
        _ => 0,
    }
}

/// The one value that the bytes begin with, and how many bytes it takes.
pub fn read_value(alloc: Global, bytes: &[u8]) -> Result<(Value, usize), ValueFault>
    // What is read stands there.
    ensures found { IfOk result (λ x. IsFront bytes.now x.0 x.1) }
    // What stands there is read, unless memory runs out.
    ensures only { (v : ValueModel) (rest : List ℕ) → Fits v → bytes.now ≡ spelling_of_value v ++ rest → IsRead v result }
    // A fault stands at the first byte that can't go on.
    ensures place { IfErr result (λ e. StandsRight bytes.now e) }
    // Which value or fault it is.
    ensures exact { Answers bytes.now result }
    // Memory can run out only where a text stands.
    ensures memory { result ≡ Err ValueFault.NoMemory → (slice_get bytes.now 0 ≡ Some TEXT_TAG) × IsOk (value_at bytes.now) }
{
    match read_part(alloc, bytes) {
        Ok((value, rest)) => Ok((value, bytes.len() - rest.len())),
        Err(PartFault::NoMemory) => Err(ValueFault::NoMemory),
        Err(PartFault::Bad { left, kind }) => Err(ValueFault::Bad {
            at: bytes.len() - left,
            kind,
        }),
    }
}

/// The value at the front, and the bytes behind it.
pub fn read_part(alloc: Global, bytes: &[u8]) -> Result<(Value, &[u8]), PartFault>
    ensures part { Gives (λ x. (x.0, x.1.now)) result (value_at bytes.now) }
    // Memory can run out only where a text stands.
    ensures memory { result ≡ Err PartFault.NoMemory → (slice_get bytes.now 0 ≡ Some TEXT_TAG) × IsOk (value_at bytes.now) }
{
    match bytes {
        [] => Err(PartFault::Bad {
            left: 0,
            kind: ValueBad::Short,
        }),
        [INT_TAG, rest @ ..] => {
            let (number, rest) = read_i64(rest)?;
            Ok((Value::Int(number), rest))
        }
        [TEXT_TAG, rest @ ..] => {
            let (text, rest) = read_text(alloc, rest)?;
            Ok((Value::Text(text), rest))
        }
        [FLAG_TAG, rest @ ..] => {
            let (flag, rest) = read_flag(rest)?;
            Ok((Value::Bool(flag), rest))
        }
        [ACTIVITY_TAG, rest @ ..] => {
            let (number, rest) = read_u64(rest)?;
            Ok((Value::Activity(ActivityId(number)), rest))
        }
        [TIMER_TAG, rest @ ..] => {
            let (number, rest) = read_u64(rest)?;
            Ok((Value::Timer(TimerId(number)), rest))
        }
        [_, ..] => Err(PartFault::Bad {
            left: bytes.len(),
            kind: ValueBad::Tag,
        }),
    }
}
