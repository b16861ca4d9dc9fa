//! The nine forms: what stands behind a line's verb.
ghost use Rattle.std.specs.Prelude.{◌≡◌, ◌∷◌, [], Ok, Err, MatchResult, option_copied};
ghost use Rattle.signal_script.specs.Answers.{Answers};
ghost use Rattle.signal_script.specs.Lines.{words_of, words_behind};
ghost use Rattle.signal_script.specs.Signals.{only_word, only_two, two_or_more, one_name, one_moment, event_fired, row_given, row_named, fields_of, signal_of_verb};

use crate::line::first_word;
use crate::parts::{add_field, cut_field, read_event, read_moment, read_name, read_row};
use crate::verb::Verb;
use crate::{Fields, LineFault, Signal, SignalBad, Word};
use slee_value::Name;
use std::alloc::Global;

/// The one word of what stands behind a verb.
#[tactic(auto, using(crate::proofs::CountLemmas::one_is_not_more))]
fn only_word(behind: Option<&str>) -> Result<&str, SignalBad>
    ensures { MatchResult result (λ word. only_word (words_behind (option_copied behind.entry)) ≡ Ok word.now) (λ kind. only_word (words_behind (option_copied behind.entry)) ≡ Err kind) }
{
    let Some(text) = behind else {
        return Err(SignalBad::Count);
    };
    match first_word(text) {
        (word, None) => Ok(word),
        (_, Some(_)) => Err(SignalBad::Count),
    }
}

/// The first two words, and what stands behind them.
#[tactic(auto, using(crate::proofs::CountLemmas::two_at_least))]
fn two_or_more(behind: Option<&str>) -> Result<(&str, &str, Option<&str>), SignalBad>
    ensures { MatchResult result (λ parts. two_or_more (words_behind (option_copied behind.entry)) ≡ Ok (parts.0.now, parts.1.now, words_behind (option_copied parts.2))) (λ kind. two_or_more (words_behind (option_copied behind.entry)) ≡ Err kind) }
{
    let Some(text) = behind else {
        return Err(SignalBad::Count);
    };
    let (first, rest) = first_word(text);
    let Some(text) = rest else {
        return Err(SignalBad::Count);
    };
    let (second, more) = first_word(text);
    Ok((first, second, more))
}

/// The two words, if there are no more.
#[tactic(auto, using(crate::proofs::CountLemmas::two_alone, crate::proofs::CountLemmas::two_with_more, crate::proofs::CountLemmas::not_two))]
fn only_two(behind: Option<&str>) -> Result<(&str, &str), SignalBad>
    ensures { MatchResult result (λ parts. only_two (words_behind (option_copied behind.entry)) ≡ Ok (parts.0.now, parts.1.now)) (λ kind. only_two (words_behind (option_copied behind.entry)) ≡ Err kind) }
{
    match two_or_more(behind) {
        Ok((first, second, None)) => Ok((first, second)),
        Ok((_, _, Some(_))) => Err(SignalBad::Count),
        Err(kind) => Err(kind),
    }
}

fn one_name(alloc: Global, behind: Option<&str>) -> Result<Name, LineFault>
    ensures { Answers result (one_name (words_behind (option_copied behind.entry))) }
{
    let word = only_word(behind)?;
    read_name(alloc, word)
}

fn one_moment(behind: Option<&str>) -> Result<u64, LineFault>
    ensures { Answers result (one_moment (words_behind (option_copied behind.entry))) }
{
    let word = only_word(behind)?;
    Ok(read_moment(word)?)
}

/// The field words.
#[tactic(auto, using(crate::proofs::CountLemmas::field_more, crate::proofs::CountLemmas::field_fault, crate::proofs::CountLemmas::value_fault))]
fn read_fields(alloc: Global, behind: Option<&str>) -> Result<Fields, LineFault>
    ensures { Answers result (fields_of [] (words_behind (option_copied behind.entry))) }
{
    let mut made = Fields::new(alloc);
    let mut left = behind;
    'fields: while let Some(text) = left {
        let (word, more) = first_word(text);
        let (name, value) = cut_field(&made, word)?;
        add_field(alloc, &mut made, name, value)?;
        left = more;
    }
    Ok(made)
}

/// `fire NAME EVENT[@SERVICE] FIELD=VALUE ..`, behind the verb.
fn event_fired(alloc: Global, behind: Option<&str>) -> Result<Signal, LineFault>
    ensures { Answers result (event_fired (words_behind (option_copied behind.entry))) }
{
    let (name, event, more) = two_or_more(behind)?;
    let name = read_name(alloc, name)?;
    let (event, service) = read_event(alloc, event)?;
    let fields = read_fields(alloc, more)?;
    Ok(Signal::Fire {
        name,
        event,
        service,
        fields,
    })
}

/// `TABLE ROW FIELD=VALUE ..`.
fn row_given(alloc: Global, behind: Option<&str>) -> Result<(Name, Word, Fields), LineFault>
    ensures { Answers result (row_given (words_behind (option_copied behind.entry))) }
{
    let (table, row, more) = two_or_more(behind)?;
    let table = read_name(alloc, table)?;
    let row = read_row(alloc, row)?;
    let fields = read_fields(alloc, more)?;
    Ok((table, row, fields))
}

/// `TABLE ROW`.
fn row_named(alloc: Global, behind: Option<&str>) -> Result<(Name, Word), LineFault>
    ensures { Answers result (row_named (words_behind (option_copied behind.entry))) }
{
    let (table, row) = only_two(behind)?;
    let table = read_name(alloc, table)?;
    let row = read_row(alloc, row)?;
    Ok((table, row))
}

/// The signal of a verb and what stands behind it.
pub fn read_behind(alloc: Global, verb: Verb, behind: Option<&str>) -> Result<Signal, LineFault>
    ensures { Answers result (signal_of_verb (words_behind (option_copied behind.entry)) verb) }
{
    match verb {
        Verb::Start => {
            let name = one_name(alloc, behind)?;
            Ok(Signal::Start { name })
        }
        Verb::End => {
            let name = one_name(alloc, behind)?;
            Ok(Signal::End { name })
        }
        Verb::Fire => event_fired(alloc, behind),
        Verb::Clock => {
            let to = one_moment(behind)?;
            Ok(Signal::Clock { to })
        }
        Verb::Activate => {
            let service = one_name(alloc, behind)?;
            Ok(Signal::Activate { service })
        }
        Verb::Deactivate => {
            let service = one_name(alloc, behind)?;
            Ok(Signal::Deactivate { service })
        }
        Verb::ProfileAdd => {
            let (table, row, fields) = row_given(alloc, behind)?;
            Ok(Signal::ProfileAdd { table, row, fields })
        }
        Verb::ProfileUpdate => {
            let (table, row, fields) = row_given(alloc, behind)?;
            Ok(Signal::ProfileUpdate { table, row, fields })
        }
        Verb::ProfileRemove => {
            let (table, row) = row_named(alloc, behind)?;
            Ok(Signal::ProfileRemove { table, row })
        }
    }
}
