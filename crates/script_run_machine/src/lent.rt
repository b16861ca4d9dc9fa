//! Values that are lent where they stand.
ghost use Rattle.std.specs.Prelude.{◌≡◌, IfOk};
ghost use Rattle.std.specs.Option.{option_copied};
ghost use Rattle.script_meaning.specs.Answers.{initial, is_of, fit, held_in};
ghost use Rattle.script_meaning.specs.Values.{int, flag, text};
ghost use Rattle.script_run_machine.specs.Kinds.{Finds, NoInt, NoFlag, NoText};
ghost use Rattle.script_run_machine.specs.Lending.{value_lent};

use crate::kinds::{flag_in, flag_within, int_in, int_within, text_in, text_within};
use script_meaning::Seen;
use slee_effect::Val;
use slee_value::{ActivityId, Kind, NoMemory, Text, TimerId, Value};
use std::alloc::Global;

/// A value that is lent where it stands.
#[derive(Debug, Clone, Copy)]
pub enum Lent<'a> {
    /// That of a variable or an effect, or one that was made.
    Set(&'a Val),
    /// That of the code, an answer or an event.
    Held(&'a Value),
    /// A text of the arguments.
    Text(&'a Text),
    /// The initial value of a type.
    Initial(Kind),
}

impl<'a> Lent<'a> {
    /// The value of a field or an attribute in an answer.
    pub fn held_in(kind: Kind, seen: Option<&'a Seen>) -> Lent<'a>
        ensures { value_lent result ≡ held_in kind (option_copied seen.entry) }
    {
        match seen {
            Some(Seen::Held(Some(value))) => Lent::Held(value),
            _ => Lent::Initial(kind),
        }
    }

    /// Whether it is of the type.
    pub fn is_of(&self, kind: Kind) -> bool
        ensures { result ≡ is_of kind (value_lent self.now) }
    {
        match self {
            Lent::Set(value) => is_of(kind, value),
            Lent::Held(value) => value.kind() == kind,
            Lent::Text(_) => kind == Kind::Text,
            Lent::Initial(own) => *own == kind,
        }
    }

    /// The same where it is of the type, and in place of any other the initial one.
    pub fn fit(self, kind: Kind) -> Lent<'a>
        ensures { value_lent result ≡ fit kind (value_lent self.entry) }
    {
        if self.is_of(kind) {
            return self;
        }
        Lent::Initial(kind)
    }

    /// The number that it is, if it is one.
    #[inline(always)]
    pub fn number(&self) -> Option<i64>
        ensures { Finds int NoInt (value_lent self.now) result }
    {
        match self {
            Lent::Set(value) => int_within(value),
            Lent::Held(value) => int_in(value),
            Lent::Initial(Kind::Int) => Some(0),
            Lent::Text(_) | Lent::Initial(_) => None,
        }
    }

    /// The truth value that it is, if it is one.
    #[inline(always)]
    pub fn flag(&self) -> Option<bool>
        ensures { Finds flag NoFlag (value_lent self.now) result }
    {
        match self {
            Lent::Set(value) => flag_within(value),
            Lent::Held(value) => flag_in(value),
            Lent::Initial(Kind::Bool) => Some(false),
            Lent::Text(_) | Lent::Initial(_) => None,
        }
    }

    /// The text that it is, if it is one.
    #[inline(always)]
    pub fn text(&self) -> Option<&'a str>
        ensures { Finds (λ t. text t.now) NoText (value_lent self.now) result }
    {
        match self {
            Lent::Set(value) => text_within(value),
            Lent::Held(value) => text_in(value),
            Lent::Text(text) => Some(text.as_str()),
            Lent::Initial(Kind::Text) => Some(""),
            Lent::Initial(_) => None,
        }
    }

    /// A copy.
    pub fn copy(&self, alloc: Global) -> Result<Val, NoMemory>
        ensures { IfOk result (λ x. x ≡ value_lent self.now) }
    {
        match self {
            Lent::Set(value) => value.copy(alloc),
            Lent::Held(value) => Ok(Val::Plain(value.copy(alloc)?)),
            Lent::Text(text) => Ok(Val::Plain(Value::Text(text.copy(alloc)?))),
            Lent::Initial(kind) => initial(alloc, *kind),
        }
    }
}

/// The initial value of a type.
pub fn initial(alloc: Global, kind: Kind) -> Result<Val, NoMemory>
    ensures { IfOk result (λ x. x ≡ initial kind) }
{
    let value = match kind {
        Kind::Int => Value::Int(0),
        Kind::Text => Value::Text(Text::from_str(alloc, "")?),
        Kind::Bool => Value::Bool(false),
        Kind::Activity => Value::Activity(ActivityId(0)),
        Kind::Timer => Value::Timer(TimerId(0)),
    };
    Ok(Val::Plain(value))
}

/// Whether a value is of the type.
pub fn is_of(kind: Kind, value: &Val) -> bool
    ensures { result ≡ is_of kind value.now }
{
    match value {
        Val::Plain(value) => value.kind() == kind,
        Val::NewActivity(_) => kind == Kind::Activity,
        Val::NewTimer(_) => kind == Kind::Timer,
    }
}
