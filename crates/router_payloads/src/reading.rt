//! Reading back the choice of a step.
ghost use Rattle.std.specs.Prelude.{◌≡◌, ◌≤◌, ◌&&◌, if◌then◌else◌, nat_le, IfOk, IsTrue, MatchResult, Some, None, length, drop};
ghost use Rattle.signal_script.specs.Signals.{signal_unbounded};
ghost use Rattle.trace_history.specs.declared.choice.Choice.TheVariants as choices;
ghost use Rattle.slee_effect.specs.Memory.{takes_memory};
ghost use Rattle.slee_effect.specs.Reading.{list_of};
ghost use Rattle.router_steps.specs.Payloads.{activity_in, choice_in, choice_of_bytes, input_in, input_of_line, is_delivered, is_read};
ghost use Rattle.router_payloads.specs.Reading.{is_counted, outcome_takes_memory, payload_takes_memory, step_takes_memory};

use signal_script::{LineFault, read_unbounded};
use slee_effect::{EffectFault, read_effects};
use slee_value::{ActivityId, NoMemory, read_u64};
use std::alloc::Global;
use trace_history::Choice;

/// The choice of a line that says something, perhaps too long a line.
fn input_of_line(alloc: Global, line: &[u8]) -> Result<Option<Choice>, NoMemory>
    ensures { IfOk result (λ found. found ≡ input_of_line (signal_unbounded line.now)) }
{
    match read_unbounded(alloc, line) {
        Ok(signal) => Ok(Some(Choice::Input(signal))),
        Err(LineFault::Bad { kind: _ }) => Ok(None),
        Err(LineFault::NoMemory) => Err(NoMemory),
    }
}

/// The line of a text, behind which nothing stands.
fn input_in(alloc: Global, bytes: &[u8]) -> Result<Option<Choice>, NoMemory>
    ensures { MatchResult result (λ found. found ≡ input_in bytes.now) (λ _. IsTrue (is_counted bytes.now)) }
{
    match bytes.split_first_chunk::<4>() {
        Some((count, line)) if u32::from_le_bytes(*count) as usize == line.len() => {
            input_of_line(alloc, line)
        }
        _ => Ok(None),
    }
}

/// The activity whose number the first eight bytes are.
fn activity_in(bytes: &[u8]) -> ActivityId
    requires { 8 ≤ length bytes.now }
    ensures { result ≡ activity_in bytes.now }
{
    match read_u64(bytes) {
        Ok((number, _)) => ActivityId(number),
        Err(_) => unreachable!(),
    }
}

/// Whether the bytes are a list of effects.
fn is_read(alloc: Global, bytes: &[u8]) -> Result<bool, NoMemory>
    ensures { MatchResult result (λ is. is ≡ is_read (list_of bytes.now)) (λ _. IsTrue (takes_memory bytes.now)) }
{
    match read_effects(alloc, bytes) {
        Ok(_) => Ok(true),
        Err(EffectFault::Bad { .. }) => Ok(false),
        Err(EffectFault::NoMemory) => Err(NoMemory),
    }
}

/// Whether the bytes are an outcome and effects.
fn is_delivered(alloc: Global, bytes: &[u8]) -> Result<bool, NoMemory>
    ensures { MatchResult result (λ is. is ≡ is_delivered bytes.now) (λ _. IsTrue (outcome_takes_memory bytes.now)) }
{
    match bytes {
        [outcome, effects @ ..] if *outcome <= 17 => is_read(alloc, effects),
        _ => Ok(false),
    }
}

/// The delivery of an activity's number, an outcome and effects.
fn delivery_in(alloc: Global, bytes: &[u8]) -> Result<Option<Choice>, NoMemory>
    ensures { MatchResult result (λ found. found ≡ (if nat_le 8 (length bytes.now) && is_delivered (drop 8 bytes.now) then Some (choices.Deliver (activity_in bytes.now)) else None)) (λ _. IsTrue (nat_le 8 (length bytes.now) && outcome_takes_memory (drop 8 bytes.now))) }
{
    if bytes.len() < 8 || !is_delivered(alloc, &bytes[8..])? {
        return Ok(None);
    }
    Ok(Some(Choice::Deliver(activity_in(bytes))))
}

/// The choice of these bytes, if they are of the grammar.
fn choice_of_bytes(alloc: Global, bytes: &[u8]) -> Result<Option<Choice>, NoMemory>
    ensures { MatchResult result (λ found. found ≡ choice_of_bytes bytes.now) (λ _. IsTrue (step_takes_memory bytes.now)) }
{
    let Some((kind, rest)) = bytes.split_first() else {
        return Ok(None);
    };
    if *kind == 1 {
        return input_in(alloc, rest);
    }
    if *kind == 2 && rest.len() == 8 {
        return Ok(Some(Choice::Initial(activity_in(rest))));
    }
    if *kind == 3 {
        return delivery_in(alloc, rest);
    }
    if *kind == 4 && rest.len() == 8 {
        return Ok(Some(Choice::Finish(activity_in(rest))));
    }
    Ok(None)
}

/// The choice of these bytes behind the clock.
fn choice_behind_clock(alloc: Global, payload: &[u8]) -> Result<Option<Choice>, NoMemory>
    ensures { MatchResult result (λ found. found ≡ choice_in 2 payload.now) (λ _. IsTrue (payload_takes_memory 2 payload.now)) }
{
    if payload.len() < 8 {
        return Ok(None);
    }
    choice_of_bytes(alloc, &payload[8..])
}

/// The choice that a payload in a format is of, if it is one. A line that is too long gives one that can't be made.
pub fn choice_in(alloc: Global, format: u8, payload: &[u8]) -> Result<Option<Choice>, NoMemory>
    ensures { MatchResult result (λ found. found ≡ choice_in format payload.now) (λ _. IsTrue (payload_takes_memory format payload.now)) }
{
    match format {
        2 => choice_behind_clock(alloc, payload),
        _ => choice_of_bytes(alloc, payload),
    }
}
