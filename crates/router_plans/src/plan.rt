//! Plans of steps. Contracts see the choice, the changes, the lines and the payload.
ghost use Rattle.std.specs.Prelude.{◌≡◌, ◌<◌, ◌^◌, length};

use router_state::Change;
use std::marker::Model;
use trace_history::{Choice, Lines};

/// The plan of a step: its choice, what it changes, what it tells, and what the journal keeps of it.
pub struct Plan {
    choice: Choice,
    changes: Vec<Change>,
    lines: Lines,
    payload: Vec<u8>,
}

impl Drop for Plan {
    fn drop(self) {
        let Self {
            choice: _,
            changes: _,
            lines: _,
            payload: _,
        } = self;
    }
}

impl Model for Plan {
    ghost use Rattle.router_plans.specs.Plans.{PlanView};

    ghost Value = { PlanView };

    ghost view = { λ p. record { choice = p.choice; changes = p.changes.items; lines = p.lines; payload = p.payload.items } };
}

impl Plan {
    pub(crate) fn new(choice: Choice, changes: Vec<Change>, lines: Lines, payload: Vec<u8>) -> Self
        ensures choice { result.choice ≡ choice }
        ensures changes { result.changes ≡ changes.items }
        ensures lines { result.lines ≡ lines }
        ensures payload { result.payload ≡ payload.items }
    {
        Plan {
            choice,
            changes,
            lines,
            payload,
        }
    }

    /// The lines of the step: its heading without the number, and what happens in it.
    pub fn lines(&self) -> &Lines
        ensures { result.now ≡ self.now.lines }
    {
        &self.lines
    }

    /// What the journal keeps of the step.
    pub fn payload(&self) -> &[u8]
        ensures { result.now ≡ self.now.payload }
    {
        &self.payload
    }

    /// What the step changes.
    pub fn changes(&self) -> &[Change]
        ensures changes { result.now ≡ self.now.changes }
        ensures few { length self.now.changes < 2 ^ 63 }
    {
        &self.changes
    }

    /// The choice, the changes and the lines.
    pub fn into_parts(self) -> (Choice, Vec<Change>, Lines)
        ensures choice { result.0 ≡ self.choice }
        ensures changes { result.1.items ≡ self.changes }
        ensures lines { result.2 ≡ self.lines }
    {
        let Self {
            choice,
            changes,
            lines,
            payload: _,
        } = self;
        (choice, changes, lines)
    }
}
