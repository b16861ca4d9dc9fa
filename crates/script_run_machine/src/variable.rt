//! A variable of a script, seen as what the meaning of scripts says of it.
ghost use Rattle.std.specs.Prelude.{◌≡◌, Some, option_map};
ghost use Rattle.std.specs.Option.{option_copied};
ghost use Rattle.script_meaning.specs.Running.{Holds, Child};
ghost use Rattle.script_meaning.specs.Values.{int, text};
ghost use Rattle.script_run_machine.specs.Variables.{value_in, child_in, number_held, text_held};

use slee_effect::{Ref, Val};
use slee_value::{Text, Value};
use std::marker::Model;

/// A variable: it holds a value, or stands for a child.
#[derive(Debug, Drop)]
pub struct Variable {
    held: Held,
}

/// What a variable holds.
#[derive(Debug, Drop)]
enum Held {
    Value(Val),
    Child(Ref),
}

impl Model for Variable {
    ghost use Rattle.script_meaning.specs.Running.{Variable as ScriptVariable};
    ghost use Rattle.script_run_machine.specs.Variables.{variable_of};

    ghost Value = { ScriptVariable };

    ghost view = { λ v. variable_of v.held };
}

impl Variable {
    /// A variable that holds this value.
    pub fn of_value(value: Val) -> Self
        ensures { result ≡ Holds value }
    {
        Variable {
            held: Held::Value(value),
        }
    }

    /// A variable that holds this number.
    #[inline(always)]
    pub fn of_number(number: i64) -> Self
        ensures { result ≡ Holds (int number) }
    {
        Variable {
            held: Held::Value(Val::Plain(Value::Int(number))),
        }
    }

    /// A variable that holds this text.
    #[inline(always)]
    pub fn of_text(given: Text) -> Self
        ensures { result ≡ Holds (text given) }
    {
        Variable {
            held: Held::Value(Val::Plain(Value::Text(given))),
        }
    }

    /// A variable that stands for this child.
    pub fn of_child(child: Ref) -> Self
        ensures { result ≡ Child child }
    {
        Variable {
            held: Held::Child(child),
        }
    }

    /// The value that it holds.
    pub fn as_value(&self) -> Option<&Val>
        ensures { option_copied result ≡ value_in self.now }
    {
        match &self.held {
            Held::Value(value) => Some(value),
            Held::Child(_) => None,
        }
    }

    /// The number that it holds, if it holds one.
    #[inline(always)]
    pub fn number(&self) -> Option<i64>
        ensures { result ≡ number_held (Some self.now) }
    {
        match &self.held {
            Held::Value(Val::Plain(Value::Int(number))) => Some(*number),
            _ => None,
        }
    }

    /// The text that it holds, if it holds one.
    #[inline(always)]
    pub fn text(&self) -> Option<&str>
        ensures { option_map (λ t. t.now) result ≡ text_held (Some self.now) }
    {
        match &self.held {
            Held::Value(Val::Plain(Value::Text(text))) => Some(text.as_str()),
            _ => None,
        }
    }

    /// Gives it a number. Most variables that are given one hold one.
    #[inline(always)]
    pub fn set_number(&mut self, number: i64)
        ensures { self.new ≡ Holds (int number) }
    {
        match &mut self.held {
            Held::Value(Val::Plain(Value::Int(old))) => *old = number,
            held => *held = Held::Value(Val::Plain(Value::Int(number))),
        }
    }

    /// The child for which it stands.
    pub fn as_child(&self) -> Option<Ref>
        ensures { result ≡ child_in self.now }
    {
        match &self.held {
            Held::Value(_) => None,
            Held::Child(child) => Some(*child),
        }
    }
}
