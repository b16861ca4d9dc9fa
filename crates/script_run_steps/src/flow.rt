//! What comes behind a step.
use slee_effect::Val;

/// What comes behind a step: the next one, or nothing, where a method gave its value. Clauses see one through `flow_of`.
#[derive(Debug, Drop)]
pub enum Flow {
    Next,
    Returned(Box<Val>),
}
