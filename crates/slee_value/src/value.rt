//! Values of fields and attributes, typed.
ghost use Rattle.std.specs.Prelude.{◌≡◌, ◌↔◌, IsTrue, IfOk};
ghost use Rattle.slee_value.specs.Kinds.{kind_of};

use crate::{ActivityId, Kind, NoMemory, Text, TimerId};
use std::alloc::Global;

/// A value of a field, an attribute or an event's field. Activity 0 and timer 0 stand for none.
#[derive(Debug, Drop)]
pub enum Value {
    Int(i64),
    Text(Text),
    Bool(bool),
    Activity(ActivityId),
    Timer(TimerId),
}

impl Value {
    /// A copy.
    pub fn copy(&self, alloc: Global) -> Result<Self, NoMemory>
        ensures { IfOk result (λ v. v ≡ self.now) }
    {
        match self {
            Value::Int(number) => Ok(Value::Int(*number)),
            Value::Text(text) => Ok(Value::Text(text.copy(alloc)?)),
            Value::Bool(flag) => Ok(Value::Bool(*flag)),
            Value::Activity(activity) => Ok(Value::Activity(*activity)),
            Value::Timer(timer) => Ok(Value::Timer(*timer)),
        }
    }

    /// Its type.
    pub fn kind(&self) -> Kind
        ensures { result ≡ kind_of self.now }
    {
        match self {
            Value::Int(_) => Kind::Int,
            Value::Text(_) => Kind::Text,
            Value::Bool(_) => Kind::Bool,
            Value::Activity(_) => Kind::Activity,
            Value::Timer(_) => Kind::Timer,
        }
    }

    /// Whether the two are the same value.
    pub fn same(&self, other: &Value) -> bool
        ensures { IsTrue result ↔ (self.now ≡ other.now) }
    {
        match (self, other) {
            (Value::Int(one), Value::Int(two)) => *one == *two,
            (Value::Text(one), Value::Text(two)) => one.same(two),
            (Value::Bool(one), Value::Bool(two)) => *one == *two,
            (Value::Activity(one), Value::Activity(two)) => one.0 == two.0,
            (Value::Timer(one), Value::Timer(two)) => one.0 == two.0,
            _ => false,
        }
    }
}
