//! The names of an event's fields read in rising order, with the first byte that breaks it.
ghost use Rattle.std.specs.Prelude.{◌≡◌, ℕ, List, [], Some};
ghost use Rattle.slee_value.specs.Reading.{Gives, Fails, text_at};
ghost use Rattle.slee_effect.specs.Rising.{greatest_behind, greatest_first, greatest_next, behind_next, reach, fall, name_fall};
ghost use Rattle.slee_effect.specs.Reading.{fall_behind, in_order, name_at, last_name};

use crate::Val;
use slee_value::{PartFault, Text, ValueBad, read_text};
use std::alloc::Global;

/// The name of the next field at the front of the bytes, and the bytes behind it.
pub(crate) fn read_name<'a>(
    alloc: Global,
    fields: &[(Text, Val)],
    bytes: &'a [u8],
) -> Result<(Text, &'a [u8]), PartFault>
    ensures { Gives (λ x. (x.0, x.1.now)) result (name_at (last_name fields.now) bytes.now) }
{
    match fall_of(fields, bytes) {
        None => read_text(alloc, bytes),
        Some(left) => Err(first_fault(left, read_text(alloc, bytes))),
    }
}

fn first_fault(left: usize, read: Result<(Text, &[u8]), PartFault>) -> PartFault
    ensures { (bytes : List ℕ) → Gives (λ x. (x.0, x.1.now)) read.entry (text_at bytes) → Fails result (in_order (Some left) (text_at bytes)) }
{
    match read {
        Ok(_) => PartFault::Bad {
            left,
            kind: ValueBad::Tag,
        },
        Err(PartFault::NoMemory) => PartFault::NoMemory,
        Err(PartFault::Bad { left: first, kind }) => {
            if first < left {
                PartFault::Bad {
                    left,
                    kind: ValueBad::Tag,
                }
            } else {
                PartFault::Bad { left: first, kind }
            }
        }
    }
}

fn fall_of(fields: &[(Text, Val)], bytes: &[u8]) -> Option<usize>
    ensures { result ≡ fall_behind (last_name fields.now) bytes.now }
{
    match fields.last() {
        None => None,
        Some((before, _)) => fall_of_name(before.as_bytes(), bytes),
    }
}

fn fall_of_name(before: &[u8], bytes: &[u8]) -> Option<usize>
    ensures { result ≡ name_fall before.now [] 4 bytes.now }
{
    // The bytes of the length that aren't read yet are the greatest.
    let mut len = [255; 4];
    let mut most = reached(before, u32::from_le_bytes(len) as usize);
    'length: for at in 0..4 {
        if at == bytes.len() {
            return None;
        }
        len[at] = bytes[at];
        most = reached(before, u32::from_le_bytes(len) as usize);
        if most == 0 {
            return Some(bytes.len() - at);
        }
    }
    fall_at(before, most, &bytes[4..])
}

fn fall_at(before: &[u8], most: usize, bytes: &[u8]) -> Option<usize>
    ensures { result ≡ fall before.now most bytes.now }
{
    'same: for at in 0..most {
        if at == before.len() {
            return None;
        }
        if at == bytes.len() {
            return None;
        }
        if before[at] < bytes[at] {
            return None;
        }
        if bytes[at] < before[at] {
            return Some(bytes.len() - at);
        }
    }
    Some(bytes.len() - most + 1)
}

fn reached(before: &[u8], len: usize) -> usize
    ensures { result ≡ reach before.now len }
{
    if before.len() < len {
        return before.len() + 1;
    }
    let mut most = 0;
    let mut caps: &[u8] = &[];
    'bytes: for at in 0..len {
        if before[at] < next_at_most(caps, len - at) {
            most = at + 1;
        }
        caps = caps_behind(caps, before[at]);
    }
    most
}

fn next_at_most(caps: &[u8], len: usize) -> u8
    ensures { result ≡ greatest_next caps.now len }
{
    match caps {
        [] => first_at_most(len),
        [cap, ..] => { if len < caps.len() { 0 } else { *cap } }
    }
}

fn first_at_most(len: usize) -> u8
    ensures { result ≡ greatest_first len }
{
    match len {
        1 => 0x7F,
        2 => 0xDF,
        3 => 0xEF,
        _ => 0xF4,
    }
}

fn caps_behind(caps: &[u8], byte: u8) -> &[u8]
    ensures { result.now ≡ behind_next caps.now byte }
{
    match caps {
        [] => caps_of(byte),
        [_, rest @ ..] => rest,
    }
}

fn caps_of(byte: u8) -> &'static [u8]
    ensures { result.now ≡ greatest_behind byte }
{
    match byte {
        0..=0x7F => &[],
        0x80..=0xDF => &[0xBF],
        0xED => &[0x9F, 0xBF],
        0xE0..=0xEF => &[0xBF, 0xBF],
        0xF4 => &[0x8F, 0xBF, 0xBF],
        _ => &[0xBF, 0xBF, 0xBF],
    }
}
