//! Lines that fire an event.
ghost use Rattle.std.specs.Prelude.{◌≡◌, [], codes, length, if◌then◌else◌, nat_le, true, false, IfOk, IfSome, IfNone, IsTrue, filter_map, map};
ghost use Rattle.deploy_model.specs.Resolving.{event_of, field_of};
ghost use Rattle.signal_script.specs.Lines.{line_limit};
ghost use Rattle.signal_script.specs.Signals.{are_fields, is_signal, spelled};
ghost use Rattle.signal_gen.specs.Firing.{field_by, fire_by, fired, if_given, value_by};
ghost use Rattle.signal_gen.specs.Seen.{are_told};

use deploy_model::EventType;
use signal_script::{Fields, LINE_LIMIT, Signal, Word, print_signal};
use slee_value::{Kind, Name, NoMemory, Text};
use std::alloc::Global;

/// An event of the deployment is fired on the activity of this name, if there is one and the line isn't too long.
#[tactic(auto, using(crate::proofs::FieldLemmas::no_event, crate::proofs::FieldLemmas::event_missing, crate::proofs::FieldLemmas::event_there, crate::proofs::FieldLemmas::none_given))]
pub fn fire_by(
    alloc: Global,
    events: &[EventType],
    name: &Name,
    rest: u32,
) -> Result<Option<Signal>, NoMemory>
    ensures made { IfOk result (λ made. made ≡ fire_by (map event_of events.now) name.now rest) }
    ensures valid { IfOk result (λ made. IfSome made (λ signal. IsTrue (is_signal signal))) }
{
    if events.is_empty() {
        return Ok(None);
    }
    let Some(event) = events.get(rest as usize % events.len()) else {
        return Ok(None);
    };
    match fired(alloc, name, rest, event)? {
        Some(signal) => {
            let given = if_given(alloc, signal)?;
            Ok(given)
        }
        None => Ok(None),
    }
}

/// The event is fired on the activity of this name. None where two of its fields have one name.
#[tactic(auto, using(crate::proofs::PlainLemmas::fire_valid, crate::proofs::PlainLemmas::fire_invalid))]
fn fired(
    alloc: Global,
    name: &Name,
    rest: u32,
    event: &EventType,
) -> Result<Option<Signal>, NoMemory>
    ensures made { IfOk result (λ made. IfSome made (λ signal. signal ≡ fired name.now rest (event_of event.now))) }
    ensures valid { IfOk result (λ made. IfSome made (λ signal. is_signal signal ≡ nat_le (length (spelled signal)) line_limit)) }
    ensures none { IfOk result (λ made. IfNone made (is_signal (fired name.now rest (event_of event.now)) ≡ false)) }
{
    let name = name.copy(alloc)?;
    let key = event.key.as_str();
    match fields_by(alloc, rest, event.fields.as_slice())? {
        Some(fields) => Ok(Some(Signal::Fire {
            name,
            event: Word::from_str(alloc, key)?,
            service: None,
            fields,
        })),
        None => Ok(None),
    }
}

/// The fields that get a value, with it. None where two of them have one name.
#[tactic(auto, using(crate::proofs::FieldLemmas::none_yet, crate::proofs::FieldLemmas::one_passed, crate::proofs::FieldLemmas::one_given, crate::proofs::FieldLemmas::one_twice, crate::proofs::FieldLemmas::all_given, crate::proofs::FieldLemmas::all_new))]
fn fields_by(
    alloc: Global,
    rest: u32,
    declared: &[(Name, Kind)],
) -> Result<Option<Fields>, NoMemory>
    ensures made { IfOk result (λ made. IfSome made (λ fields. fields ≡ filter_map (field_by rest) (map field_of declared.now))) }
    ensures told { IfOk result (λ made. IfSome made (λ fields. are_told fields ≡ true)) }
    ensures new { IfOk result (λ made. IfSome made (λ fields. are_fields [] fields ≡ true)) }
    ensures none { IfOk result (λ made. IfNone made (are_fields [] (filter_map (field_by rest) (map field_of declared.now)) ≡ false)) }
{
    let mut fields = Fields::new(alloc);
    let mut left = declared;
    'each: while let Some((field, others)) = left.split_first() {
        left = others;
        let Some(value) = value_by(alloc, rest, field.1)? else {
            continue;
        };
        let name = field.0.as_str();
        if fields.has(name) {
            return Ok(None);
        }
        fields.push(name, value.as_str())?;
    }
    Ok(Some(fields))
}

/// The value that a field of this type gets, if it gets one.
fn value_by(alloc: Global, rest: u32, kind: Kind) -> Result<Option<Text>, NoMemory>
    ensures { IfOk result (λ value. value ≡ value_by rest kind) }
{
    match kind {
        Kind::Int => Ok(Some(Text::from(format!(in alloc; "{}", rest % 1000)?))),
        Kind::Text => Ok(Some(Text::from(format!(in alloc; "tel:{}", rest % 100)?))),
        Kind::Bool => Ok(Some(Text::from_str(alloc, flag_word(rest % 2 == 1))?)),
        Kind::Activity | Kind::Timer => Ok(None),
    }
}

fn flag_word(flag: bool) -> &'static str
    ensures { result.now ≡ (if flag then codes "true" else codes "false") }
{
    if flag { "true" } else { "false" }
}

/// The signal, if its line isn't too long.
#[tactic(auto, using(crate::proofs::FieldLemmas::too_long, crate::proofs::FieldLemmas::short_valid, crate::proofs::FieldLemmas::short_given))]
fn if_given(alloc: Global, signal: Signal) -> Result<Option<Signal>, NoMemory>
    requires { is_signal signal ≡ nat_le (length (spelled signal)) line_limit }
    ensures given { IfOk result (λ given. given ≡ if_given signal) }
    ensures valid { IfOk result (λ given. IfSome given (λ signal. IsTrue (is_signal signal))) }
{
    let mut line = Vec::new(alloc);
    print_signal(&signal, &mut line)?;
    if line.len() > LINE_LIMIT {
        return Ok(None);
    }
    Ok(Some(signal))
}
