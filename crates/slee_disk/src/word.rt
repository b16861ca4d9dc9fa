//! Bytes as one word of a line.
ghost use Rattle.std.specs.Prelude.{◌≡◌, ◌<◌, ◌^◌, true, IfSome, length};
ghost use Rattle.std.specs.List.{position};
ghost use Rattle.slee_disk.specs.Writes.{Writes};
ghost use Rattle.slee_value.specs.Escape.{escaped, escape_of, is_escaped};

use crate::{Failed, Sink, write_whole};
use slee_value::{hex_digit, needs_escape};

/// Writes the bytes as a word: each that has to be escaped as `%` and two upper-case hexadecimal digits.
pub fn write_word<K: Sink>(out: &mut K, bytes: &[u8]) -> Result<(), Failed>
    ensures { Writes K.contents K.faults out.old out.new (escaped true bytes.now) result }
{
    let mut rest = bytes;
    'runs: loop {
        match first_escape(rest) {
            None => return write_whole(out, rest),
            Some(at) => {
                write_whole(out, &rest[..at])?;
                write_escape(out, rest[at])?;
                rest = &rest[at + 1..];
            }
        }
    }
}

/// The place of the first byte that has to be escaped.
#[tactic(auto, using(crate::proofs::WordLemmas::within))]
fn first_escape(bytes: &[u8]) -> Option<usize>
    ensures first { result ≡ position (is_escaped true) bytes.now }
    ensures within { IfSome result (λ at. at < length bytes.now) }
    ensures bound { length bytes.now < 2 ^ 64 }
{
    bytes.iter().position(|b| needs_escape(*b, true))
}

/// Writes `%` and the two digits of a byte.
fn write_escape<K: Sink>(out: &mut K, byte: u8) -> Result<(), Failed>
    ensures { Writes K.contents K.faults out.old out.new (escape_of byte) result }
{
    write_whole(out, &[b'%', hex_digit(byte / 16), hex_digit(byte % 16)])
}
