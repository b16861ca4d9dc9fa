//! Reading an escaped text.
ghost use Rattle.std.specs.Prelude.{◌≡◌, ◌∷◌, ◌<◌, ◌/◌, ◌%◌, ◌&&◌, ◌==◌, true, false, None, IfOk, IsNone, IfSome, MatchOption, length, option_map};
ghost use Rattle.std.specs.List.{list_any};
ghost use Rattle.slee_value.specs.Escape.{hex_digit_of, is_escaped};
ghost use Rattle.signal_script.specs.WordText.{unescaped, is_escape, byte_of_digits, digit_value};

use slee_value::{NoMemory, Text, hex_digit, needs_escape};
use std::alloc::Global;

/// The text that was escaped, where this is an escaped text: each byte that has to be escaped is, and no other.
#[tactic(auto, using(crate::proofs::WordTextLemmas::plain_text))]
pub fn unescape(alloc: Global, text: &str, word: bool) -> Result<Option<Text>, NoMemory>
    ensures { IfOk result (λ read. read ≡ unescaped word text.now) }
{
    if !has_escaped(text.as_bytes(), word) {
        return Ok(Some(Text::from_str(alloc, text)?));
    }
    read_escapes(alloc, text, word)
}

/// Whether it has a byte that isn't written as it is.
pub(crate) fn has_escaped(text: &[u8], word: bool) -> bool
    ensures { result ≡ list_any (is_escaped word) text.now }
{
    text.iter().any(|b| needs_escape(*b, word))
}

/// The same, a byte after the other.
#[tactic(auto, using(crate::proofs::WordTextLemmas::one_byte_more, crate::proofs::WordTextLemmas::none_more))]
pub(crate) fn read_escapes(alloc: Global, text: &str, word: bool) -> Result<Option<Text>, NoMemory>
    ensures { IfOk result (λ read. read ≡ unescaped word text.now) }
{
    let mut made = Vec::with_capacity(alloc, text.len())?;
    let mut rest = text.as_bytes();
    while !rest.is_empty() {
        let Some((byte, after)) = first_byte(rest, word) else {
            return Ok(None);
        };
        made.push(byte)?;
        rest = after;
    }
    Ok(Some(Text::from(String::from_utf8(made).unwrap())))
}

/// The first byte that was escaped, and what follows it.
#[tactic(auto, using(crate::proofs::WordTextLemmas::plain_cut, crate::proofs::WordTextLemmas::escape_cut))]
fn first_byte(text: &[u8], word: bool) -> Option<(u8, &[u8])>
    requires { 0 < length text.now }
    ensures none { IsNone result → unescaped word text.now ≡ None }
    ensures some { IfSome result (λ part. unescaped word text.now ≡ option_map (λ more. part.0 ∷ more) (unescaped word part.1.now)) }
    ensures shorter { IfSome result (λ part. length part.1.now < length text.now) }
{
    let byte = text[0];
    if byte != b'%' {
        return if needs_escape(byte, word) {
            None
        } else {
            Some((byte, &text[1..]))
        };
    }
    if text.len() < 3 {
        return None;
    }
    let escaped = escaped_byte(text[1], text[2], word)?;
    Some((escaped, &text[3..]))
}

/// The byte of which these two are the digits, if it has to be escaped.
fn escaped_byte(high: u8, low: u8, word: bool) -> Option<u8>
    ensures { MatchOption result (is_escape word high low ≡ false) (λ byte. (is_escape word high low ≡ true) × (byte ≡ byte_of_digits high low)) }
{
    let byte = 16 * digit_value(high) + digit_value(low);
    if byte < 0x80 && is_spelled(byte as u8, high, low) && needs_escape(byte as u8, word) {
        Some(byte as u8)
    } else {
        None
    }
}

/// Whether these are the digits of the byte.
fn is_spelled(byte: u8, high: u8, low: u8) -> bool
    ensures { result ≡ (hex_digit_of (byte / 16) == high && hex_digit_of (byte % 16) == low) }
{
    hex_digit(byte / 16) == high && hex_digit(byte % 16) == low
}

fn digit_value(d: u8) -> u32
    ensures value { result ≡ digit_value d }
    ensures bound { result < 256 }
{
    if d <= b'9' {
        u32::from(d.saturating_sub(b'0'))
    } else {
        u32::from(d - 55)
    }
}
