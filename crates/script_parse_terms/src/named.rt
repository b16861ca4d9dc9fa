//! Operands that name something: fields of the block and the event, tables, priorities, counts.
ghost use Rattle.std.specs.Prelude.{◌≤◌};
ghost use Rattle.script_tree.specs.Grammar.{Level};
ghost use Rattle.script_tree.specs.Spelling.{fixed};
ghost use Rattle.script_parse_terms.specs.Reads.{ReadsOperand};
ghost use Rattle.script_parse_terms.specs.Takes.{Begun};

use crate::query::closed_name;
use crate::refusal::ReadError;
use crate::take::{name, open, want};
use script_tree::{Expr, Fixed, Leaf, Lexemes};
use std::alloc::Global;

/// `self.NAME`
#[tactic(auto, using(crate::proofs::Machine::made))]
pub fn field<'a>(
    alloc: Global,
    ts: Lexemes<'a>,
    behind: Lexemes<'a>,
    depth: u32,
) -> Result<(Expr, Lexemes<'a>), ReadError>
    requires deep { depth ≤ 64 }
    requires begun { Begun (Level 0) (fixed Fixed.Own) depth ts.now behind.now }
    ensures { ReadsOperand depth ts.now result }
{
    let rest = want(behind, Fixed::Dot, depth)?;
    let (name, rest) = name(alloc, rest, depth)?;
    Ok((Expr::Leaf(Leaf::Field(name)), rest))
}

/// `event.NAME`
#[tactic(auto, using(crate::proofs::Machine::made))]
pub fn event_field<'a>(
    alloc: Global,
    ts: Lexemes<'a>,
    behind: Lexemes<'a>,
    depth: u32,
) -> Result<(Expr, Lexemes<'a>), ReadError>
    requires deep { depth ≤ 64 }
    requires begun { Begun (Level 0) (fixed Fixed.Event) depth ts.now behind.now }
    ensures { ReadsOperand depth ts.now result }
{
    let rest = want(behind, Fixed::Dot, depth)?;
    let (name, rest) = name(alloc, rest, depth)?;
    Ok((Expr::Leaf(Leaf::EventField(name)), rest))
}

/// `table(NAME)`
pub fn table<'a>(
    alloc: Global,
    ts: Lexemes<'a>,
    behind: Lexemes<'a>,
    depth: u32,
) -> Result<(Expr, Lexemes<'a>), ReadError>
    requires deep { depth ≤ 64 }
    requires begun { Begun (Level 0) (fixed Fixed.Table) depth ts.now behind.now }
    ensures { ReadsOperand depth ts.now result }
{
    let inner = open(behind, Fixed::OpenRound, depth)?;
    let (name, rest) = closed_name(alloc, inner, depth)?;
    Ok((Expr::Leaf(Leaf::Table(name)), rest))
}

/// `count(RELATION)`
#[tactic(auto, using(crate::proofs::Machine::made))]
pub fn count<'a>(
    alloc: Global,
    ts: Lexemes<'a>,
    behind: Lexemes<'a>,
    depth: u32,
) -> Result<(Expr, Lexemes<'a>), ReadError>
    requires deep { depth ≤ 64 }
    requires begun { Begun (Level 0) (fixed Fixed.Count) depth ts.now behind.now }
    ensures { ReadsOperand depth ts.now result }
{
    let inner = open(behind, Fixed::OpenRound, depth)?;
    let (name, rest) = closed_name(alloc, inner, depth)?;
    Ok((Expr::Leaf(Leaf::Count(name)), rest))
}

/// `priority(CHILD)`
#[tactic(auto, using(crate::proofs::Machine::made))]
pub fn priority<'a>(
    alloc: Global,
    ts: Lexemes<'a>,
    behind: Lexemes<'a>,
    depth: u32,
) -> Result<(Expr, Lexemes<'a>), ReadError>
    requires deep { depth ≤ 64 }
    requires begun { Begun (Level 0) (fixed Fixed.Priority) depth ts.now behind.now }
    ensures { ReadsOperand depth ts.now result }
{
    let inner = open(behind, Fixed::OpenRound, depth)?;
    let (name, rest) = closed_name(alloc, inner, depth)?;
    Ok((Expr::Leaf(Leaf::Priority(name)), rest))
}
