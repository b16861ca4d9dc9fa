//! Scripts. Clauses see a script as its statements and its text; how many share it is no matter of it.
ghost use Rattle.std.specs.Prelude.{◌≡◌, ◌≤◌, IfOk, IsTrue, length};
ghost use Rattle.script_tree.specs.Reading.{Writes, place_of_token};
ghost use Rattle.script_tree.specs.Spelling.{is_script, spell_statements};
ghost use Rattle.script_tree.specs.Tree.{statements_of};

use crate::Stmt;
use crate::scanning::{Place, place_of_token};
use crate::written::Written;
use slee_value::{NoMemory, Text};
use std::alloc::Global;
use std::marker::Model;
use std::sync::Arc;

/// A script: the tree of a text, with the text itself. Both stand in memory once, however many share them.
#[derive(Drop)]
pub struct Script {
    written: Arc<Written>,
}

impl Model for Script {
    ghost use Rattle.std.specs.Arc.{arc_value};
    ghost use Rattle.std.specs.Coded.{codes};
    ghost use Rattle.script_tree.specs.contracts.tree.Stmt as a_statement;
    ghost use Rattle.script_tree.specs.declared.written.Written.{Written as AWritten};

    ghost Value = { AWritten };

    ghost coded = { Prim.hlevel (codes, a_statement.the_row.coded) };

    ghost view = { λ s. arc_value s.written };
}

impl Script {
    pub fn new(alloc: Global, statements: Vec<Stmt>, text: Text) -> Result<Self, NoMemory>
        requires { Writes text (statements_of statements.items) }
        ensures statements { IfOk result (λ s. s.statements.items ≡ statements.items) }
        ensures text { IfOk result (λ s. s.text ≡ text) }
    {
        let written = Arc::new(alloc, Written { statements, text })?;
        Ok(Script { written })
    }

    /// The same script once more. No memory is taken; only 2^63 sharers would be too many.
    pub fn share(&self) -> Result<Self, NoMemory>
        ensures { IfOk result (λ s. s ≡ self.now) }
    {
        let written = Arc::try_clone(&self.written)?;
        Ok(Script { written })
    }

    /// Its statements, in order.
    pub fn statements(&self) -> &[Stmt]
        ensures same { result.now ≡ self.now.statements.items }
        ensures script { IsTrue (is_script (statements_of result.now)) }
    {
        &self.written.statements
    }

    /// The text that it was read from. It has no more tokens than bytes.
    #[tactic(auto, using(crate::proofs::Places::bounded))]
    pub fn text(&self) -> &Text
        ensures same { result.now ≡ self.now.text }
        ensures written { Writes result.now (statements_of self.now.statements.items) }
        ensures bound { length (spell_statements (statements_of self.now.statements.items)) ≤ length result.now }
    {
        &self.written.text
    }

    /// The line and column of the token that has so many before it, or of the text's end.
    pub fn place(&self, alloc: Global, tokens_before: usize) -> Result<Place, NoMemory>
        ensures { IfOk result (λ p. p ≡ place_of_token self.now.text tokens_before) }
    {
        place_of_token(alloc, self.written.text.as_str(), tokens_before)
    }
}
