//! Statements that give a variable, a field or an attribute its value.
ghost use Rattle.std.specs.Prelude.{◌≤◌};
ghost use Rattle.script_tree.specs.declared.lexeme.Lexeme.TheVariants as t;
ghost use Rattle.script_tree.specs.Grammar.{Stmt as AStmt};
ghost use Rattle.script_tree.specs.Spelling.{fixed};
ghost use Rattle.script_parse.specs.Reads.{ReadsStatement};
ghost use Rattle.script_parse_terms.specs.Takes.{Begun};

use script_parse_terms::{ReadError, before, boxed_before, close, name, open, want};
use script_tree::{Assignment, Fixed, Lexemes, NameRef, Stmt};
use std::alloc::Global;

/// `let NAME = e;`
pub fn new_variable<'a>(
    alloc: Global,
    ts: Lexemes<'a>,
    behind: Lexemes<'a>,
    depth: u32,
) -> Result<(Stmt, Lexemes<'a>), ReadError>
    requires deep { depth ≤ 64 }
    requires begun { Begun AStmt (fixed Fixed.Let) depth ts.now behind.now }
    ensures { ReadsStatement depth ts.now result }
{
    let (name, rest) = name(alloc, behind, depth)?;
    let rest = want(rest, Fixed::Assign, depth)?;
    let (e, rest) = before(alloc, rest, Fixed::Semicolon, depth)?;
    Ok((Stmt::Assign(Assignment::New(name, e)), rest))
}

/// `self.NAME = e;`
pub fn field<'a>(
    alloc: Global,
    ts: Lexemes<'a>,
    behind: Lexemes<'a>,
    depth: u32,
) -> Result<(Stmt, Lexemes<'a>), ReadError>
    requires deep { depth ≤ 64 }
    requires begun { Begun AStmt (fixed Fixed.Own) depth ts.now behind.now }
    ensures { ReadsStatement depth ts.now result }
{
    let rest = want(behind, Fixed::Dot, depth)?;
    let (name, rest) = name(alloc, rest, depth)?;
    let rest = want(rest, Fixed::Assign, depth)?;
    let (e, rest) = before(alloc, rest, Fixed::Semicolon, depth)?;
    Ok((Stmt::Assign(Assignment::Field(name, e)), rest))
}

/// `attr(a, NAME) = e;`
pub fn attribute<'a>(
    alloc: Global,
    ts: Lexemes<'a>,
    behind: Lexemes<'a>,
    depth: u32,
) -> Result<(Stmt, Lexemes<'a>), ReadError>
    requires deep { depth ≤ 64 }
    requires begun { Begun AStmt (fixed Fixed.Attr) depth ts.now behind.now }
    ensures { ReadsStatement depth ts.now result }
{
    let rest = open(behind, Fixed::OpenRound, depth)?;
    let (activity, rest) = boxed_before(alloc, rest, Fixed::Comma, depth + 1)?;
    let (name, rest) = name(alloc, rest, depth + 1)?;
    let rest = close(rest, Fixed::CloseRound, depth)?;
    let rest = want(rest, Fixed::Assign, depth)?;
    let (e, rest) = before(alloc, rest, Fixed::Semicolon, depth)?;
    Ok((
        Stmt::Assign(Assignment::Attribute(Box::into_inner(activity), name, e)),
        rest,
    ))
}

/// `NAME = e;`
pub fn variable<'a>(
    alloc: Global,
    ts: Lexemes<'a>,
    name: &NameRef,
    behind: Lexemes<'a>,
    depth: u32,
) -> Result<(Stmt, Lexemes<'a>), ReadError>
    requires deep { depth ≤ 64 }
    requires begun { Begun AStmt (t.Name name.now) depth ts.now behind.now }
    ensures { ReadsStatement depth ts.now result }
{
    let name = name.copy(alloc)?;
    let rest = want(behind, Fixed::Assign, depth)?;
    let (e, rest) = before(alloc, rest, Fixed::Semicolon, depth)?;
    Ok((Stmt::Assign(Assignment::Variable(name, e)), rest))
}
