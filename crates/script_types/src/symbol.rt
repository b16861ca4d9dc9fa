//! Names with their numbers among all names that the scripts of a deployment use.

/// A name with its number: its place among all names that scripts use. None stands for a name that is none of them.
#[derive(Debug, Drop)]
pub struct Symbol<T> {
    pub name: T,
    pub number: Option<usize>,
}
