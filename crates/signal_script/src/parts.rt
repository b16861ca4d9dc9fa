//! The words of a line, each read as what stands in its place.
ghost use Rattle.std.specs.Prelude.{◌≡◌, ◌++◌, ◌∷◌, [], IsTrue, MatchOption, MatchResult, IfOk, IfErr, OnOk, Some, None, Ok, Err, nat_le, if◌then◌else◌};
ghost use Rattle.slee_value.specs.Name.{is_name};
ghost use Rattle.signal_script.specs.Answers.{Answers, IsFaultOf};
ghost use Rattle.signal_script.specs.Lines.{cut_at};
ghost use Rattle.signal_script.specs.Signals.{name_of, is_event, event_name_of, event_for, event_of, moment_of, text_of, row_of, field_of, is_new_name, and_then, clock_limit};

use crate::number::number_of;
use crate::unescaping::{has_escaped, read_escapes};
use crate::{Fields, LineFault, SignalBad, Word};
use built_in_events::BuiltInEvent;
use slee_value::{Name, Text};
use std::alloc::Global;

/// The latest moment of the clock, in milliseconds.
pub const CLOCK_LIMIT: u64 = 4_000_000_000_000_000;

pub fn read_name(alloc: Global, word: &str) -> Result<Name, LineFault>
    ensures { Answers result (name_of word.now) }
{
    if !Name::is_name(word.as_bytes()) {
        return Err(LineFault::Bad {
            kind: SignalBad::Name,
        });
    }
    Ok(Name::from_slice(alloc, word.as_bytes())?)
}

/// Whether the word is a name, or that of an event that every deployment has.
fn is_event(word: &str) -> bool
    ensures { result ≡ is_event word.now }
{
    Name::is_name(word.as_bytes()) || BuiltInEvent::named(word.as_bytes()).is_some()
}

fn read_event_name(alloc: Global, word: &str) -> Result<Word, LineFault>
    ensures { Answers result (event_name_of word.now) }
{
    if !is_event(word) {
        return Err(LineFault::Bad {
            kind: SignalBad::Name,
        });
    }
    Ok(Word::from_str(alloc, word)?)
}

/// What stands before the first at sign, and what behind it.
fn cut_at_sign(word: &str) -> Option<(&str, &str)>
    ensures { MatchOption result (cut_at 64 word.now ≡ None) (λ parts. cut_at 64 word.now ≡ Some (parts.0.now, parts.1.now)) }
{
    word.split_once('@')
}

/// What stands before the first equals sign, and what behind it.
fn cut_at_equals(word: &str) -> Option<(&str, &str)>
    ensures { MatchOption result (cut_at 61 word.now ≡ None) (λ parts. cut_at 61 word.now ≡ Some (parts.0.now, parts.1.now)) }
{
    word.split_once('=')
}

/// An event, and the service that it is for, where it is for one alone.
pub fn read_event(alloc: Global, word: &str) -> Result<(Word, Option<Name>), LineFault>
    ensures { Answers result (event_of word.now) }
{
    match cut_at_sign(word) {
        None => {
            let event = read_event_name(alloc, word)?;
            Ok((event, None))
        }
        Some((event, service)) => read_event_for(alloc, event, service),
    }
}

fn read_event_for(
    alloc: Global,
    event: &str,
    service: &str,
) -> Result<(Word, Option<Name>), LineFault>
    ensures { Answers result (event_for (event.now, service.now)) }
{
    let event = read_event_name(alloc, event)?;
    let service = read_name(alloc, service)?;
    Ok((event, Some(service)))
}

/// A moment, without a sign or leading zeros.
#[tactic(auto, using(crate::proofs::NumberLemmas::moment_spelled, crate::proofs::NumberLemmas::moment_none))]
pub fn read_moment(word: &str) -> Result<u64, SignalBad>
    ensures { result ≡ moment_of word.now }
{
    match number_of(word) {
        None => Err(SignalBad::Number),
        Some(moment) => bounded(moment),
    }
}

fn bounded(moment: u64) -> Result<u64, SignalBad>
    ensures { result ≡ (if nat_le moment clock_limit then Ok moment else Err SignalBad.Number) }
{
    if moment <= CLOCK_LIMIT {
        Ok(moment)
    } else {
        Err(SignalBad::Number)
    }
}

/// The text that a word with escapes stands for.
fn read_escaped(alloc: Global, word: &str) -> Result<Text, LineFault>
    ensures { Answers result (text_of word.now) }
{
    match read_escapes(alloc, word, true) {
        Ok(Some(text)) => Ok(text),
        Ok(None) => Err(LineFault::Bad {
            kind: SignalBad::Escape,
        }),
        Err(_) => Err(LineFault::NoMemory),
    }
}

/// What a word stands for.
#[tactic(auto, using(crate::proofs::WordTextLemmas::plain_word))]
fn read_word(alloc: Global, word: &str) -> Result<Word, LineFault>
    ensures { Answers result (text_of word.now) }
{
    if !has_escaped(word.as_bytes(), true) {
        return Ok(Word::from_str(alloc, word)?);
    }
    let text = read_escaped(alloc, word)?;
    Ok(Word::from_str(alloc, text.as_str())?)
}

/// The name of a row, which isn't empty.
pub fn read_row(alloc: Global, word: &str) -> Result<Word, LineFault>
    ensures { Answers result (row_of word.now) }
{
    if word.is_empty() {
        return Err(LineFault::Bad {
            kind: SignalBad::Name,
        });
    }
    read_word(alloc, word)
}

/// The name of a field word behind these fields, and the word for its value.
pub fn cut_field<'a>(before: &Fields, word: &'a str) -> Result<(&'a str, &'a str), SignalBad>
    ensures field { MatchResult result (λ parts. field_of before.now word.now ≡ and_then (text_of parts.1.now) (λ value. Ok (parts.0.now, value))) (λ kind. field_of before.now word.now ≡ Err kind) }
    ensures name { IfOk result (λ parts. IsTrue (is_name parts.0.now)) }
{
    let Some((name, value)) = cut_at_equals(word) else {
        return Err(SignalBad::Field);
    };
    if !is_new_name(before, name) {
        return Err(SignalBad::Field);
    }
    Ok((name, value))
}

/// Adds a field of this name, and of the value that the word stands for.
#[tactic(auto, using(crate::proofs::WordTextLemmas::plain_word))]
pub fn add_field(
    alloc: Global,
    fields: &mut Fields,
    name: &str,
    word: &str,
) -> Result<(), LineFault>
    requires { IsTrue (is_name name.now) }
    ensures ok { OnOk result (and_then (text_of word.now) (λ value. Ok (fields.old ++ (name.now, value) ∷ [])) ≡ Ok fields.new) }
    ensures err { IfErr result (IsFaultOf (text_of word.now)) }
{
    if !has_escaped(word.as_bytes(), true) {
        fields.push(name, word)?;
        return Ok(());
    }
    let value = read_escaped(alloc, word)?;
    fields.push(name, value.as_str())?;
    Ok(())
}

/// Whether this is a name that none of the fields has.
fn is_new_name(before: &Fields, name: &str) -> bool
    ensures { result ≡ is_new_name before.now name.now }
{
    Name::is_name(name.as_bytes()) && !before.has(name)
}
