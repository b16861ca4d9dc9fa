//! Reading values whose type is known.
ghost use Rattle.script_meaning.specs.Values.{int, text, flag, activity_value};
ghost use Rattle.slee_effect.specs.declared.value.Val.TheVariants.{Plain};
ghost use Rattle.script_run_machine.specs.Kinds.{Reads, Finds, NoInt, NoText, NoFlag, NoActivity, NoTimer, timer_value};
ghost use Rattle.script_run_machine.specs.Lending.{value_lent};

use crate::{Lent, Stop};
use slee_effect::{Ref, Val};
use slee_value::{ActivityId, Kind, TimerId, Value};

/// The number in a value, if it is one.
pub fn int_in(value: &Value) -> Option<i64>
    ensures { Finds int NoInt (Plain value.now) result }
{
    match value {
        Value::Int(number) => Some(*number),
        Value::Text(_) | Value::Bool(_) | Value::Activity(_) | Value::Timer(_) => None,
    }
}

/// The number in a value of a run, if it is one.
pub fn int_within(value: &Val) -> Option<i64>
    ensures { Finds int NoInt value.now result }
{
    match value {
        Val::Plain(value) => int_in(value),
        Val::NewActivity(_) | Val::NewTimer(_) => None,
    }
}

/// The text in a value, if it is one.
pub fn text_in(value: &Value) -> Option<&str>
    ensures { Finds (λ t. text t.now) NoText (Plain value.now) result }
{
    match value {
        Value::Text(text) => Some(text.as_str()),
        Value::Int(_) | Value::Bool(_) | Value::Activity(_) | Value::Timer(_) => None,
    }
}

/// The text in a value of a run, if it is one.
pub fn text_within(value: &Val) -> Option<&str>
    ensures { Finds (λ t. text t.now) NoText value.now result }
{
    match value {
        Val::Plain(value) => text_in(value),
        Val::NewActivity(_) | Val::NewTimer(_) => None,
    }
}

/// The truth value in a value, if it is one.
pub fn flag_in(value: &Value) -> Option<bool>
    ensures { Finds flag NoFlag (Plain value.now) result }
{
    match value {
        Value::Bool(flag) => Some(*flag),
        Value::Int(_) | Value::Text(_) | Value::Activity(_) | Value::Timer(_) => None,
    }
}

/// The truth value in a value of a run, if it is one.
pub fn flag_within(value: &Val) -> Option<bool>
    ensures { Finds flag NoFlag value.now result }
{
    match value {
        Val::Plain(value) => flag_in(value),
        Val::NewActivity(_) | Val::NewTimer(_) => None,
    }
}

/// The activity in a value of a run.
fn activity_within(value: &Val) -> Result<Ref, Stop>
    ensures { Reads activity_value NoActivity value.now result }
{
    match value {
        Val::Plain(Value::Activity(ActivityId(number))) => Ok(Ref::Known(*number)),
        Val::NewActivity(number) => Ok(Ref::Fresh(*number)),
        _ => Err(Stop::Unchecked),
    }
}

/// The activity in a value.
fn activity_in(value: &Value) -> Result<Ref, Stop>
    ensures { Reads activity_value NoActivity (Plain value.now) result }
{
    match value {
        Value::Activity(ActivityId(number)) => Ok(Ref::Known(*number)),
        _ => Err(Stop::Unchecked),
    }
}

/// The timer in a value of a run.
fn timer_within(value: &Val) -> Result<Ref, Stop>
    ensures { Reads timer_value NoTimer value.now result }
{
    match value {
        Val::Plain(Value::Timer(TimerId(number))) => Ok(Ref::Known(*number)),
        Val::NewTimer(number) => Ok(Ref::Fresh(*number)),
        _ => Err(Stop::Unchecked),
    }
}

/// The timer in a value.
fn timer_in(value: &Value) -> Result<Ref, Stop>
    ensures { Reads timer_value NoTimer (Plain value.now) result }
{
    match value {
        Value::Timer(TimerId(number)) => Ok(Ref::Known(*number)),
        _ => Err(Stop::Unchecked),
    }
}

/// The number that a value is.
pub fn int_of(value: Lent) -> Result<i64, Stop>
    ensures { Reads int NoInt (value_lent value.entry) result }
{
    match value.number() {
        Some(number) => Ok(number),
        None => Err(Stop::Unchecked),
    }
}

/// The text that a value is.
pub fn text_of(value: Lent) -> Result<&str, Stop>
    ensures { Reads (λ t. text t.now) NoText (value_lent value.entry) result }
{
    match value.text() {
        Some(text) => Ok(text),
        None => Err(Stop::Unchecked),
    }
}

/// The truth value that a value is.
pub fn flag_of(value: Lent) -> Result<bool, Stop>
    ensures { Reads flag NoFlag (value_lent value.entry) result }
{
    match value.flag() {
        Some(flag) => Ok(flag),
        None => Err(Stop::Unchecked),
    }
}

/// The activity that a value is.
pub fn activity_of(value: Lent) -> Result<Ref, Stop>
    ensures { Reads activity_value NoActivity (value_lent value.entry) result }
{
    match value {
        Lent::Set(value) => activity_within(value),
        Lent::Held(value) => activity_in(value),
        Lent::Initial(Kind::Activity) => Ok(Ref::Known(0)),
        Lent::Text(_) | Lent::Initial(_) => Err(Stop::Unchecked),
    }
}

/// The timer that a value is.
pub fn timer_of(value: Lent) -> Result<Ref, Stop>
    ensures { Reads timer_value NoTimer (value_lent value.entry) result }
{
    match value {
        Lent::Set(value) => timer_within(value),
        Lent::Held(value) => timer_in(value),
        Lent::Initial(Kind::Timer) => Ok(Ref::Known(0)),
        Lent::Text(_) | Lent::Initial(_) => Err(Stop::Unchecked),
    }
}
