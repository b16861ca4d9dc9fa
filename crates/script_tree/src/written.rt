//! The tree of a text beside that text, as all sharers of a script have it.
ghost use Rattle.script_tree.specs.Reading.{Writes};
ghost use Rattle.script_tree.specs.Tree.{statements_of};

use crate::Stmt;
use slee_value::Text;

/// Statements, and the text that they were read from.
#[derive(Drop)]
pub(crate) struct Written {
    pub statements: Vec<Stmt>,
    pub text: Text,
    pub ghost written: { Writes text (statements_of statements.items) },
}
