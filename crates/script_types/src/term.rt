//! What stands in the terms of a checked script, apart from other terms.
use crate::Symbol;
use slee_value::{Kind, Name, Text, Value};

/// A type whose values are put in order.
#[derive(Debug, Clone, Copy, PartialEq, Eq)]
pub enum Scale {
    Int,
    Text,
}

/// An operator between two operands.
#[derive(Debug, Clone, Copy, PartialEq, Eq)]
pub enum Joint {
    Add,
    Subtract,
    Multiply,
    Divide,
    Remainder,
    Join,
    Both,
    Either,
}

/// A comparison of two values whose type is known.
#[derive(Debug, Clone, Copy, PartialEq, Eq)]
pub enum Test {
    Same(Kind),
    Unlike(Kind),
    Below(Scale),
    AtMost(Scale),
    Above(Scale),
    AtLeast(Scale),
}

/// A term without parts.
#[derive(Debug, Drop)]
pub enum Atom {
    /// A number, a text, a truth value, `none` as an activity or a timer, or the activity of a table.
    Constant(Value),
    Now,
    Activity,
    Failure,
    /// The value of a variable, by its place in the scope.
    Slot(usize),
    /// A field of the entity, with its type.
    Field(Symbol<Name>, Kind),
    /// A field of the event by its place in byte order, with its type.
    EventField(usize, Kind),
    /// How many children of the relation there are.
    Count(Symbol<Name>),
    /// The priority of the child in this place of the scope.
    Priority(usize),
}

/// What is asked of one value.
#[derive(Debug, Drop)]
pub enum Question {
    Negative,
    Not,
    TextOfInt,
    TextOfBool,
    Len,
    Active,
    Attached,
    Masked(Symbol<Text>),
    /// An attribute of an activity by its shared key, with its type.
    Attribute(Symbol<Text>, Kind),
    Bound,
    Lookup,
    /// An attribute of a row: the table, the attribute and its type.
    Profile(Symbol<Name>, Symbol<Name>, Kind),
    HasProfile(Symbol<Name>),
    HasTimer,
}
