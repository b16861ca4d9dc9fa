//! What stands in the steps of a checked script, apart from terms.
use crate::Symbol;
use slee_value::Name;

/// The entity itself, or the child in a place of the scope.
#[derive(Debug, Clone, Copy, PartialEq, Eq)]
pub enum Who {
    Own,
    Child(usize),
}

/// What a loop goes over.
#[derive(Debug, Drop)]
pub enum Range {
    Activities,
    Children(Symbol<Name>),
}
