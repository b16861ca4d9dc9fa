//! Lists of the numbers of names, made before a run begins.
ghost use Rattle.std.specs.Prelude.{◌≡◌, IfOk, Some, map};
ghost use Rattle.script_types.specs.Codes.{number_in};
ghost use Rattle.script_run_machine.specs.Numbering.{answer_numbers, effect_number, key_number, numbers_seen};

use crate::numbering::{AnswerNumbers, number_of, number_of_effect, number_of_key};
use script_meaning::{Key, Seen};
use script_types::{CodeList, NamedList};
use slee_effect::Effect;
use slee_value::{Name, NoMemory, Text, Value};
use std::alloc::Global;

/// The numbers of the names of keys.
pub fn numbers_of_keys(
    alloc: Global,
    names: &NamedList<Text>,
    keys: &[Key],
) -> Result<Vec<Option<usize>>, NoMemory>
    ensures { IfOk result (λ v. v.items ≡ map (key_number names.now) keys.now) }
{
    let mut numbers = Vec::new(alloc);
    for key in keys {
        numbers.push(number_of_key(names, key))?;
    }
    Ok(numbers)
}

/// The numbers of the names of effects.
pub fn numbers_of_effects(
    alloc: Global,
    names: &NamedList<Text>,
    effects: &[Effect],
) -> Result<Vec<Option<usize>>, NoMemory>
    ensures { IfOk result (λ v. v.items ≡ map (effect_number names.now) effects.now) }
{
    let mut numbers = Vec::new(alloc);
    for effect in effects {
        numbers.push(number_of_effect(names, effect))?;
    }
    Ok(numbers)
}

/// The numbers of events.
fn numbers_of_events(
    alloc: Global,
    names: &NamedList<Text>,
    events: &[Text],
) -> Result<CodeList<Option<usize>>, NoMemory>
    ensures { IfOk result (λ l. l ≡ map (number_in names.now) events.now) }
{
    let mut numbers = CodeList::new(alloc);
    for event in events {
        numbers.push(number_of(names, event.as_str()))?;
    }
    Ok(numbers)
}

/// The numbers of the names of a row's attributes.
fn numbers_of_row(
    alloc: Global,
    names: &NamedList<Text>,
    fields: &[(Name, Value)],
) -> Result<CodeList<Option<usize>>, NoMemory>
    ensures { IfOk result (λ l. l ≡ map (number_in names.now) (map (λ f. f.0) fields.now)) }
{
    let mut numbers = CodeList::new(alloc);
    for (name, _) in fields {
        numbers.push(number_of(names, name.as_str()))?;
    }
    Ok(numbers)
}

/// The numbers of the names in an answer.
fn numbers_of_seen(
    alloc: Global,
    names: &NamedList<Text>,
    seen: &Seen,
) -> Result<CodeList<Option<usize>>, NoMemory>
    ensures { IfOk result (λ l. l ≡ numbers_seen names.now (Some seen.now)) }
{
    match seen {
        Seen::Masks(Some(events)) => numbers_of_events(alloc, names, events.as_slice()),
        Seen::Row(Some(row)) => numbers_of_row(alloc, names, row.as_slice()),
        _ => Ok(CodeList::new(alloc)),
    }
}

/// The numbers of the names in answers that were kept, and of the names of their keys.
pub fn numbers_of_answers(
    alloc: Global,
    names: &NamedList<Text>,
    known: &[(Key, Seen)],
) -> Result<Vec<AnswerNumbers>, NoMemory>
    ensures { IfOk result (λ v. v.items ≡ map (answer_numbers names.now) known.now) }
{
    let mut numbers = Vec::new(alloc);
    for (key, seen) in known {
        numbers.push(AnswerNumbers {
            key: number_of_key(names, key),
            seen: numbers_of_seen(alloc, names, seen)?,
        })?;
    }
    Ok(numbers)
}
