//! The variables of blocks and of calls, and what is left of a run behind its end.
ghost use Rattle.std.specs.Prelude.{◌≡◌, ◌≤◌, length, take};

use crate::{Machine, Variable};
use script_meaning::Key;
use slee_effect::Effect;
use std::mem;

/// A run behind its end.
#[derive(Debug, Drop)]
pub struct Finished {
    /// Whether rollback was asked for.
    pub is_asked: bool,
    pub keys: Vec<Key>,
    pub effects: Vec<Effect>,
}

impl Machine<'_> {
    /// The units that are left.
    pub fn left(&self) -> u32
        ensures { result ≡ self.now.left }
    {
        self.left
    }

    /// How many variables there are.
    pub fn variable_count(&self) -> usize
        ensures { result ≡ length self.now.variables }
    {
        self.variables.len()
    }

    /// Forgets the variables behind the first so many.
    pub fn forget_behind(&mut self, count: usize)
        ensures { self.new ≡ (record self.old { variables = take count self.old.variables }) }
    {
        self.variables.truncate(count);
    }

    /// Puts other variables in place of all, which are given back.
    pub fn replace_variables(&mut self, variables: Vec<Variable>) -> Vec<Variable>
        ensures new { self.new ≡ (record self.old { variables = variables.items }) }
        ensures old { result.items ≡ self.old.variables }
    {
        mem::replace(&mut self.variables, variables)
    }

    /// What the run read and did.
    pub fn finish(self) -> Finished
        ensures asked { result.is_asked ≡ self.entry.asked }
        ensures keys { result.keys.items ≡ self.entry.keys }
        ensures effects { result.effects.items ≡ self.entry.effects }
    {
        Finished {
            is_asked: self.is_asked,
            keys: self.keys,
            effects: self.effects,
        }
    }
}
