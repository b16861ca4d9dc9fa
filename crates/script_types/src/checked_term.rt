//! Expressions of checked scripts. Clauses see one through `term_of`.
use crate::{Atom, Joint, Question, Test};

/// An expression in which every name is resolved.
#[derive(Drop)]
pub enum Term {
    Single(Atom),
    /// What is asked of one value.
    Ask(Box<(Question, Term)>),
    Compare(Box<(Test, Term, Term)>),
    /// An operator between two operands, and others behind it with their right operands, joined from left to right. They
    /// stand side by side and not in one another, so that a long row of them is no deep tree.
    Chain(Box<(Term, Joint, Term)>, Vec<(Joint, Term)>),
}
